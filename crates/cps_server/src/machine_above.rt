//! The machine for which a line is assembled.
ghost use Rattle.std.specs.Prelude.{◌≡◌, Some};
ghost use Rattle.cps_state.specs.Keys.{State, control_of, overwritten, with_put};
ghost use Rattle.cps_server.specs.MachineAbove as machines;

use crate::document::Document;
use cps_expr::Machine;
use cps_state::{Answer, Key, Put, Trace};

/// The machine for which a line of a document is assembled, from 0; behind the last one, the machine there.
pub fn machine_at(document: &Document, line: u32) -> Machine
    ensures { result ≡ machines.machine_at document.now line }
{
    let traces = document.session().traces();
    machine_behind(&traces[..(line as usize).min(traces.len())])
}

/// The machine behind lines that did this.
fn machine_behind(traces: &[Trace]) -> Machine
    ensures { result ≡ machines.machine_behind traces.now }
{
    let mut machine = Machine::Cp;
    for trace in traces {
        machine = behind(machine, trace.puts());
    }
    machine
}

/// The machine behind a line that puts this, by the one in front of it.
fn behind(machine: Machine, puts: &[Put]) -> Machine
    ensures { (state : State) → machine ≡ machines.machine_in state → result ≡ machines.machine_in (overwritten state puts.now) }
{
    let mut machine = machine;
    for put in puts {
        machine = with(machine, put);
    }
    machine
}

fn with(machine: Machine, put: &Put) -> Machine
    ensures { (state : State) → machine ≡ machines.machine_in state → result ≡ machines.machine_in (with_put state put.now) }
{
    match put.key {
        Key::Control => machine_in(&put.answer),
        _ => machine,
    }
}

/// The machine that control says.
fn machine_in(control: &Answer) -> Machine
    ensures { result ≡ (control_of (Some control.now)).machine }
{
    match control {
        Answer::Control(control, _) => control.machine,
        _ => Machine::Cp,
    }
}
