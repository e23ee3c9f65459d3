//! Instructions of the central processor, from their codes.
use super::instruction::{Flow, Front, Instruction, Register, Role};

/// The octal digits of a parcel that begins an instruction: two of the operation, and three.
#[derive(Clone, Copy)]
struct Code {
    f: u8,
    i: u8,
    j: u8,
    k: u8,
}

impl Code {
    fn of(parcel: u32) -> Code {
        Code {
            f: ((parcel >> 9) & 0o77) as u8,
            i: ((parcel >> 6) & 7) as u8,
            j: ((parcel >> 3) & 7) as u8,
            k: (parcel & 7) as u8,
        }
    }

    /// j and k as one number.
    fn count(self) -> u8 {
        (self.j % 8) * 8 + self.k % 8
    }
}

fn a(digit: u8) -> Register {
    Register {
        letter: b'A',
        digit,
    }
}

fn b(digit: u8) -> Register {
    Register {
        letter: b'B',
        digit,
    }
}

fn x(digit: u8) -> Register {
    Register {
        letter: b'X',
        digit,
    }
}

/// The instruction that begins with a parcel of 15 bits, before another one. None where no form has that code.
pub fn central_instruction(parcel: u32, next: Option<u32>) -> Option<Instruction> {
    let code = Code::of(parcel);
    match code.f {
        0o00..=0o07 => jump(code, next?),
        0o50..=0o52 | 0o60..=0o62 | 0o70..=0o72 => Some(long_set(code, next?)),
        0o10..=0o17 => boolean(code),
        0o20 | 0o21 | 0o43 => Some(by_count(code)),
        0o22..=0o27 => Some(shift(code)),
        0o30..=0o42 | 0o44 | 0o45 => Some(arithmetic(code)),
        0o46 if parcel == 0o46000 => Some(Instruction::plain(1, b"NO", operation_cost(code.f))),
        0o46 => None,
        0o47 => alone(code, b"CX", Front::One(x(code.k))),
        _ => Some(short_set(code)),
    }
}

/// The bits that an operation costs as code, by its first six bits: common ones cost few.
fn operation_cost(f: u8) -> u32 {
    match f {
        0o51 | 0o10 | 0o61 | 0o71 => 4,
        0o03 | 0o04 | 0o20 | 0o36 | 0o43 | 0o54 | 0o56 | 0o63 | 0o66 => 5,
        0o01 | 0o50 | 0o60 | 0o73 | 0o76 => 5,
        0o05..=0o07 | 0o11 | 0o12 | 0o21 | 0o37 | 0o46 | 0o52 => 6,
        0o62 | 0o67 | 0o70 | 0o72 | 0o74 | 0o77 => 6,
        0o00 | 0o16 | 0o17 | 0o25 | 0o31..=0o35 | 0o41 | 0o42 | 0o44 | 0o45 | 0o47 => 8,
        _ => 7,
    }
}

/// K of 18 bits: the last digit of a parcel, and the next parcel.
fn long_address(code: Code, next: u32) -> u32 {
    (u32::from(code.k & 7) << 15) | (next & 0o77777)
}

fn jump(code: Code, next: u32) -> Option<Instruction> {
    let address = long_address(code, next);
    let cost = operation_cost(code.f);
    match code.f {
        0 if code.i == 0 && code.j == 0 && address == 0 => {
            Some(Instruction::plain(2, b"PS", cost).with_flow(Flow::Stop))
        }
        1 if code.i == 0 && code.j == 0 => Some(
            Instruction::plain(2, b"RJ", cost)
                .with_address(address, Role::Jump)
                .with_flow(Flow::Call),
        ),
        2 if code.j == 0 => Some(indexed_jump(code, address)),
        3 => Some(
            Instruction::plain(2, on_x(code.i), cost.saturating_add(3))
                .with_front(Front::One(x(code.j)))
                .with_address(address, Role::Jump)
                .with_flow(Flow::Branch),
        ),
        4..=7 => Some(branch(code, address)),
        _ => None,
    }
}

/// A jump that tests an X register.
fn on_x(i: u8) -> &'static [u8] {
    match i {
        0 => b"ZR",
        1 => b"NZ",
        2 => b"PL",
        3 => b"NG",
        4 => b"IR",
        5 => b"OR",
        6 => b"DF",
        _ => b"ID",
    }
}

/// JP.
fn indexed_jump(code: Code, address: u32) -> Instruction {
    let jump = Instruction::plain(2, b"JP", operation_cost(code.f)).with_flow(Flow::Stop);
    if code.i == 0 {
        return jump.with_address(address, Role::Jump);
    }
    let jump = jump.with_front(Front::One(b(code.i)));
    if address == 0 {
        jump
    } else {
        jump.with_address(address, Role::Cell)
    }
}

/// A jump that compares B registers.
fn branch(code: Code, address: u32) -> Instruction {
    let cost = operation_cost(code.f);
    let (operation, front, registers): (&'static [u8], Front, u32) = match (
        code.f, code.i, code.j,
    ) {
        (4, 0, 0) => {
            return Instruction::plain(2, b"EQ", cost)
                .with_address(address, Role::Jump)
                .with_flow(Flow::Stop);
        }
        (4, i, 0) if i > 0 => (b"ZR", Front::One(b(i)), 1),
        (5, i, 0) if i > 0 => (b"NZ", Front::One(b(i)), 1),
        (6, i, 0) if i > 0 => (b"PL", Front::One(b(i)), 1),
        (7, i, 0) if i > 0 => (b"NG", Front::One(b(i)), 1),
        (6, 0, j) if j > 0 => (b"LE", Front::One(b(j)), 1),
        (7, 0, j) if j > 0 => (b"GT", Front::One(b(j)), 1),
        (4, i, j) => (b"EQ", Front::Pair(b(i), b',', b(j)), 2),
        (5, i, j) => (b"NE", Front::Pair(b(i), b',', b(j)), 2),
        (6, i, j) => (b"GE", Front::Pair(b(i), b',', b(j)), 2),
        (_, i, j) => (b"LT", Front::Pair(b(i), b',', b(j)), 2),
    };
    Instruction::plain(
        2,
        operation,
        cost.saturating_add(registers.saturating_mul(3)),
    )
    .with_front(front)
    .with_address(address, Role::Jump)
    .with_flow(Flow::Branch)
}

/// The operation that sets a register.
fn set_operation(f: u8) -> &'static [u8] {
    match f {
        0o50..=0o57 => b"SA",
        0o60..=0o67 => b"SB",
        _ => b"SX",
    }
}

/// A register that is set to K, or to a register and K.
fn long_set(code: Code, next: u32) -> Instruction {
    let address = long_address(code, next);
    let cost = operation_cost(code.f);
    let role = if code.f < 0o60 {
        Role::Cell
    } else {
        Role::Value
    };
    let operation = set_operation(code.f);
    let register = match code.f & 7 {
        0 => a(code.j),
        1 if code.j == 0 => {
            return Instruction::plain(2, operation, cost.saturating_add(3))
                .with_digit(code.i)
                .with_address(address, role);
        }
        1 => b(code.j),
        _ => x(code.j),
    };
    Instruction::plain(2, operation, cost.saturating_add(6))
        .with_digit(code.i)
        .with_front(Front::One(register))
        .with_address(address, role)
        .beside()
}

/// A register that is set to a sum of registers.
fn short_set(code: Code) -> Instruction {
    let (j, k) = (code.j, code.k);
    let front = match code.f & 7 {
        3 if k == 0 => Front::One(x(j)),
        3 => Front::Pair(x(j), b'+', b(k)),
        4 if k == 0 => Front::One(a(j)),
        4 => Front::Pair(a(j), b'+', b(k)),
        5 => Front::Pair(a(j), b'-', b(k)),
        6 if k == 0 => Front::One(b(j)),
        6 => Front::Pair(b(j), b'+', b(k)),
        _ if j == 0 => Front::Minus(b(k)),
        _ => Front::Pair(b(j), b'-', b(k)),
    };
    let cost = if code.f & 7 == 5 { 9 } else { 8 };
    short(code, set_operation(code.f), front, cost)
}

/// An instruction of 15 bits that sets a register.
fn short(code: Code, operation: &'static [u8], front: Front, cost: u32) -> Instruction {
    Instruction::plain(1, operation, operation_cost(code.f).saturating_add(cost))
        .with_digit(code.i)
        .with_front(front)
}

/// An instruction of which j and k are the same register.
fn alone(code: Code, operation: &'static [u8], front: Front) -> Option<Instruction> {
    if code.j == code.k {
        Some(short(code, operation, front, 6))
    } else {
        None
    }
}

fn boolean(code: Code) -> Option<Instruction> {
    let (j, k) = (x(code.j), x(code.k));
    let front = match code.f {
        0o10 => return alone(code, b"BX", Front::One(j)),
        0o14 => return alone(code, b"BX", Front::Minus(k)),
        0o11 => Front::Pair(j, b'*', k),
        0o12 => Front::Pair(j, b'+', k),
        0o13 => Front::Pair(j, b'-', k),
        0o15 => Front::MinusPair(k, b'*', j),
        0o16 => Front::MinusPair(k, b'+', j),
        _ => Front::MinusPair(k, b'-', j),
    };
    Some(short(code, b"BX", front, 9))
}

/// A shift by a count, or a mask.
fn by_count(code: Code) -> Instruction {
    let operation: &'static [u8] = match code.f {
        0o20 => b"LX",
        0o21 => b"AX",
        _ => b"MX",
    };
    let count = code.count();
    let cost = if count > 60 { 11 } else { 7 };
    short(code, operation, Front::Count(count), cost)
}

/// A shift by a B register, or one that normalizes, unpacks or packs.
fn shift(code: Code) -> Instruction {
    let operation: &'static [u8] = match code.f {
        0o22 => b"LX",
        0o23 => b"AX",
        0o24 => b"NX",
        0o25 => b"ZX",
        0o26 => b"UX",
        _ => b"PX",
    };
    let front = if code.j == 0 && code.f > 0o23 {
        Front::One(x(code.k))
    } else {
        Front::Pair(b(code.j), b',', x(code.k))
    };
    short(code, operation, front, 9)
}

fn arithmetic(code: Code) -> Instruction {
    let (operation, sign): (&'static [u8], u8) = match code.f {
        0o30 => (b"FX", b'+'),
        0o31 => (b"FX", b'-'),
        0o32 => (b"DX", b'+'),
        0o33 => (b"DX", b'-'),
        0o34 => (b"RX", b'+'),
        0o35 => (b"RX", b'-'),
        0o36 => (b"IX", b'+'),
        0o37 => (b"IX", b'-'),
        0o40 => (b"FX", b'*'),
        0o41 => (b"RX", b'*'),
        0o42 => (b"DX", b'*'),
        0o44 => (b"FX", b'/'),
        _ => (b"RX", b'/'),
    };
    short(code, operation, Front::Pair(x(code.j), sign, x(code.k)), 9)
}

/// What a code without a form is on other machines; empty where it is nothing.
pub fn stranger(parcel: u32) -> &'static [u8] {
    match (parcel >> 6) & 0o777 {
        0o011 => b"RE",
        0o012 => b"WE",
        0o013 => b"XJ",
        0o014 => b"RX",
        0o015 => b"WX",
        0o464 => b"IM",
        0o465 => b"DM",
        0o466 => b"CC",
        0o467 => b"CU",
        0o100..=0o107 | 0o140..=0o147 => b"BX",
        0o470..=0o477 => b"CX",
        0o460..=0o463 => b"NO",
        _ => b"",
    }
}
