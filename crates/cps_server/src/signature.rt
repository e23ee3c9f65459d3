//! What an operation takes, as it is told.
ghost use Rattle.std.specs.Prelude.{◌≡◌, ◌<◌, All, IsTrue, map, max, length, IfOk};
ghost use Rattle.serde_json.specs.View.{view};
ghost use Rattle.cps_server.specs.Signatures.{IsPart, IsSignature, TellsHelp, help_json, parameter_count, part_json, signature_json, told_help, told_signature};

use serde_json::{Value, json};
use std::alloc::{AllocError, Global};

/// Characters of a label, from one up to another.
#[derive(Clone, Copy)]
pub struct LabelPart {
    pub start: usize,
    pub end: usize,
}

/// What an operation takes: its name with its operands, and where each of these stands there.
pub struct Signature {
    pub label: Vec<u8>,
    pub parameters: Vec<LabelPart>,
}

// Written out, so that it is proved once.
impl Drop for Signature {
    fn drop(self) {
        let Signature { label, parameters } = self;
        drop(label);
        drop(parameters);
    }
}

/// Signatures, and how many operands stand before the one that is written.
pub struct Help {
    pub signatures: Vec<Signature>,
    pub commas: usize,
}

// Written out, so that it is proved once.
impl Drop for Help {
    fn drop(self) {
        let Help {
            signatures,
            commas: _,
        } = self;
        drop(signatures);
    }
}

impl Signature {
    /// Of a name and operands with commas between them.
    pub fn of(alloc: Global, name: &[u8], operands: &[u8]) -> Result<Signature, AllocError> {
        let mut label = name.to_vec(alloc)?;
        let mut parameters = Vec::new(alloc);
        if !operands.is_empty() {
            label.push(b' ')?;
            let before = label.len();
            label.extend_from_slice(operands)?;
            push_parts(&mut parameters, operands, before)?;
        }
        Ok(Signature { label, parameters })
    }

    /// The same with those of its parts that stand in its label.
    fn standing(self, alloc: Global) -> Result<Signature, AllocError>
        ensures { IfOk result IsSignature }
    {
        let Signature { label, parameters } = self;
        let parameters = parts_within(alloc, label.len(), &parameters)?;
        Ok(Signature { label, parameters })
    }
}

impl Help {
    /// As it is told: the first signature that takes so many operands is the active one. It is null where there is none.
    pub fn tell(self, alloc: Global) -> Result<Value, AllocError>
        ensures { IfOk result (λ json. TellsHelp (view json)) }
    {
        let Help { signatures, commas } = self;
        let signatures = standing(alloc, signatures)?;
        tell_some(alloc, &signatures, commas)
    }
}

/// Appends where operands stand behind so many characters.
fn push_parts(
    parts: &mut Vec<LabelPart>,
    operands: &[u8],
    before: usize,
) -> Result<(), AllocError> {
    let mut start = before;
    let mut end = before;
    for byte in operands {
        if *byte == b',' {
            parts.push(LabelPart { start, end })?;
            start = end.saturating_add(1);
        }
        end = end.saturating_add(1);
    }
    parts.push(LabelPart { start, end })?;
    Ok(())
}

fn tell_some(alloc: Global, signatures: &[Signature], commas: usize) -> Result<Value, AllocError>
    requires { All IsSignature signatures.now }
    ensures { IfOk result (λ json. TellsHelp (view json)) }
{
    if signatures.is_empty() {
        return Ok(Value::Null);
    }
    let active = active_of(signatures, commas);
    let parameter = parameter_of(signatures, active, commas);
    tell(alloc, signatures, active, parameter)
}

/// The same, each with those of its parts that stand in its label.
fn standing(alloc: Global, found: Vec<Signature>) -> Result<Vec<Signature>, AllocError>
    ensures { IfOk result (λ signatures. All IsSignature signatures.items) }
{
    let mut signatures = Vec::new(alloc);
    for signature in found {
        signatures.push(signature.standing(alloc)?)?;
    }
    Ok(signatures)
}

/// Those that stand in so many characters.
fn parts_within(
    alloc: Global,
    count: usize,
    parts: &[LabelPart],
) -> Result<Vec<LabelPart>, AllocError>
    ensures { IfOk result (λ within. All (IsPart count) within.items) }
{
    let mut within = Vec::new(alloc);
    for part in parts {
        if is_part(*part, count) {
            within.push(*part)?;
        }
    }
    Ok(within)
}

fn is_part(part: LabelPart, count: usize) -> bool
    ensures { IsTrue result → IsPart count part }
{
    part.start <= part.end && part.end <= count
}

/// The first that takes more than so many operands; else the first.
fn active_of(signatures: &[Signature], commas: usize) -> usize
    ensures { 0 < length signatures.now → result < length signatures.now }
{
    for (at, signature) in signatures.iter().enumerate() {
        if commas < signature.parameters.len() {
            return at;
        }
    }
    0
}

/// The parameter behind so many others; the first where there is none.
fn parameter_of(signatures: &[Signature], active: usize, commas: usize) -> usize
    ensures { result < max 1 (parameter_count signatures.now active) }
{
    match signatures.get(active) {
        Some(signature) => count_below(commas, signature.parameters.len()),
        None => 0,
    }
}

fn count_below(commas: usize, count: usize) -> usize
    ensures { result < max 1 count }
{
    if commas < count { commas } else { 0 }
}

fn tell(
    alloc: Global,
    signatures: &[Signature],
    active: usize,
    parameter: usize,
) -> Result<Value, AllocError>
    ensures { IfOk result (λ json. view json ≡ help_json signatures.now active parameter) }
{
    let told = tell_each(alloc, signatures)?;
    told_by(alloc, Value::from(told), active, parameter)
}

fn told_by(
    alloc: Global,
    signatures: Value,
    active: usize,
    parameter: usize,
) -> Result<Value, AllocError>
    ensures { IfOk result (λ json. view json ≡ told_help (view signatures) active parameter) }
{
    json!(in alloc; {"activeParameter": parameter, "activeSignature": active, "signatures": signatures})
}

fn tell_each(alloc: Global, signatures: &[Signature]) -> Result<Vec<Value>, AllocError>
    ensures { IfOk result (λ told. map view told.items ≡ map signature_json signatures.now) }
{
    let mut told = Vec::new(alloc);
    for signature in signatures {
        told.push(tell_signature(alloc, signature)?)?;
    }
    Ok(told)
}

fn tell_signature(alloc: Global, signature: &Signature) -> Result<Value, AllocError>
    ensures { IfOk result (λ json. view json ≡ signature_json signature.now) }
{
    let parameters = tell_parts(alloc, &signature.parameters)?;
    labeled(alloc, &signature.label, Value::from(parameters))
}

/// A label with its parameters.
fn labeled(alloc: Global, label: &[u8], parameters: Value) -> Result<Value, AllocError>
    ensures { IfOk result (λ json. view json ≡ told_signature label.now (view parameters)) }
{
    let label = String::from_utf8_lossy(alloc, label)?;
    json!(in alloc; {"label": (&label), "parameters": parameters})
}

fn tell_parts(alloc: Global, parts: &[LabelPart]) -> Result<Vec<Value>, AllocError>
    ensures { IfOk result (λ told. map view told.items ≡ map part_json parts.now) }
{
    let mut told = Vec::new(alloc);
    for part in parts {
        told.push(tell_part(alloc, *part)?)?;
    }
    Ok(told)
}

fn tell_part(alloc: Global, part: LabelPart) -> Result<Value, AllocError>
    ensures { IfOk result (λ json. view json ≡ part_json part) }
{
    let start = part.start;
    let end = part.end;
    json!(in alloc; {"label": [start, end]})
}
