//! Instructions of a peripheral processor, from their codes.
use super::image::Image;
use super::instruction::{Flow, Front, Instruction, Role};

/// The instruction of a peripheral processor at a word, if it decodes; the second word is the one that is given.
pub fn peripheral_at(image: &Image<'_>, index: usize, next: Option<usize>) -> Option<Instruction> {
    if !image.is_whole(index) {
        return None;
    }
    let next = match next {
        Some(next) if image.is_whole(next) => Some(low_bits(image.value(next))),
        _ => None,
    };
    peripheral_instruction(low_bits(image.value(index)), next, image.address(index))
}

fn low_bits(word: u64) -> u32 {
    (word & 0o7777) as u32
}

/// The instruction that begins with a word of 12 bits at an address, before another one. None where no form has that code.
fn peripheral_instruction(word: u32, next: Option<u32>, address: u32) -> Option<Instruction> {
    let f = ((word >> 6) & 0o77) as u8;
    let d = (word & 0o77) as u8;
    let cost = operation_cost(f);
    match f {
        0 if d == 0 => Some(Instruction::plain(1, b"PSN", cost).with_flow(Flow::Stop)),
        0 => None,
        3..=7 if d == 0o77 => None,
        3..=7 => Some(relative_jump(f, d, address)),
        _ => {
            if let Some(operation) = short_operation(f) {
                return Some(short(f, d, operation));
            }
            let next = next? & 0o7777;
            if let Some(operation) = constant_operation(f) {
                let cost = cost.saturating_add(if d == 0 { 2 } else { 7 });
                let constant = (u32::from(d) << 12) | next;
                return Some(Instruction::plain(2, operation, cost).with_address(
                    constant,
                    Role::Value,
                ));
            }
            memory(f, d, next)
        }
    }
}

/// The bits that an operation costs as code: common ones cost few.
fn operation_cost(f: u8) -> u32 {
    match f {
        0o03..=0o05 | 0o14 | 0o30 | 0o34 => 4,
        0o01 | 0o02 | 0o06 | 0o10 | 0o12 | 0o16 | 0o17 | 0o20 | 0o50 | 0o54 => 5,
        0o07 | 0o11 | 0o13 | 0o31 | 0o32 | 0o35..=0o37 | 0o40 | 0o44 | 0o71 | 0o73 => 6,
        0o21 | 0o33 | 0o41 | 0o42 | 0o51 | 0o52 | 0o56 | 0o57 | 0o60..=0o67 => 7,
        0o15 | 0o22 | 0o23 | 0o26 | 0o27 | 0o43 | 0o45..=0o47 => 8,
        0o53 | 0o55 | 0o70 | 0o72 | 0o74..=0o77 => 8,
        0o00 => 10,
        _ => 99,
    }
}

/// A jump to a target up to 37 words away.
fn relative_jump(f: u8, d: u8, address: u32) -> Instruction {
    let operation: &'static [u8] = match f {
        3 => b"UJN",
        4 => b"ZJN",
        5 => b"NJN",
        6 => b"PJN",
        _ => b"MJN",
    };
    let target = if d < 0o40 {
        address.wrapping_add(u32::from(d))
    } else {
        address.wrapping_sub(u32::from(0o77u8.saturating_sub(d)))
    };
    let flow = if f == 3 { Flow::Stop } else { Flow::Branch };
    Instruction::plain(1, operation, operation_cost(f).saturating_add(6))
        .with_address(target, Role::Jump)
        .with_flow(flow)
}

/// An instruction of one word.
fn short(f: u8, d: u8, operation: &'static [u8]) -> Instruction {
    let role = match f {
        0o10 => Role::Shift,
        0o30..=0o47 | 0o60 | 0o62 => Role::Cell,
        _ => Role::Count,
    };
    let cost = operation_cost(f).saturating_add(if d < 0o20 { 5 } else { 7 });
    Instruction::plain(1, operation, cost).with_address(u32::from(d), role)
}

fn short_operation(f: u8) -> Option<&'static [u8]> {
    match f {
        0o10..=0o17 | 0o26 | 0o27 => Some(constant_word(f)),
        0o30..=0o37 => Some(direct_word(f)),
        0o40..=0o47 => Some(indirect_word(f)),
        0o60 => Some(b"CRD"),
        0o62 => Some(b"CWD"),
        0o70 => Some(b"IAN"),
        0o72 => Some(b"OAN"),
        0o74 => Some(b"ACN"),
        0o75 => Some(b"DCN"),
        0o76 => Some(b"FAN"),
        _ => None,
    }
}

fn constant_word(f: u8) -> &'static [u8] {
    match f {
        0o10 => b"SHN",
        0o11 => b"LMN",
        0o12 => b"LPN",
        0o13 => b"SCN",
        0o14 => b"LDN",
        0o15 => b"LCN",
        0o16 => b"ADN",
        0o17 => b"SBN",
        0o26 => b"EXN",
        _ => b"RPN",
    }
}

fn direct_word(f: u8) -> &'static [u8] {
    match f {
        0o30 => b"LDD",
        0o31 => b"ADD",
        0o32 => b"SBD",
        0o33 => b"LMD",
        0o34 => b"STD",
        0o35 => b"RAD",
        0o36 => b"AOD",
        _ => b"SOD",
    }
}

fn indirect_word(f: u8) -> &'static [u8] {
    match f {
        0o40 => b"LDI",
        0o41 => b"ADI",
        0o42 => b"SBI",
        0o43 => b"LMI",
        0o44 => b"STI",
        0o45 => b"RAI",
        0o46 => b"AOI",
        _ => b"SOI",
    }
}

fn constant_operation(f: u8) -> Option<&'static [u8]> {
    match f {
        0o20 => Some(b"LDC"),
        0o21 => Some(b"ADC"),
        0o22 => Some(b"LPC"),
        0o23 => Some(b"LMC"),
        _ => None,
    }
}

/// An instruction that names a word of memory.
fn memory(f: u8, d: u8, m: u32) -> Option<Instruction> {
    let operation = memory_operation(f)?;
    let shows_d = matches!(f, 0o64..=0o67 | 0o71 | 0o73 | 0o77);
    let role = match f {
        0o77 => Role::Count,
        1 | 2 if d == 0 => Role::Jump,
        0o64..=0o67 => Role::Jump,
        _ => Role::Cell,
    };
    let flow = match f {
        1 => Flow::Stop,
        2 => Flow::Call,
        0o64..=0o67 => Flow::Branch,
        _ => Flow::On,
    };
    let more = if shows_d {
        5
    } else if d == 0 {
        2
    } else {
        7
    };
    let made = Instruction::plain(2, operation, operation_cost(f).saturating_add(more))
        .with_front(Front::Nothing)
        .with_address(m, role)
        .with_flow(flow);
    let made = if d == 0 || shows_d {
        made
    } else {
        made.beside()
    };
    if d == 0 && !shows_d {
        Some(made)
    } else {
        Some(made.with_behind(d))
    }
}

fn memory_operation(f: u8) -> Option<&'static [u8]> {
    match f {
        0o01 => Some(b"LJM"),
        0o02 => Some(b"RJM"),
        0o50..=0o57 => Some(memory_word(f)),
        0o61 => Some(b"CRM"),
        0o63 => Some(b"CWM"),
        0o64 => Some(b"AJM"),
        0o65 => Some(b"IJM"),
        0o66 => Some(b"FJM"),
        0o67 => Some(b"EJM"),
        0o71 => Some(b"IAM"),
        0o73 => Some(b"OAM"),
        0o77 => Some(b"FNC"),
        _ => None,
    }
}

fn memory_word(f: u8) -> &'static [u8] {
    match f {
        0o50 => b"LDM",
        0o51 => b"ADM",
        0o52 => b"SBM",
        0o53 => b"LMM",
        0o54 => b"STM",
        0o55 => b"RAM",
        0o56 => b"AOM",
        _ => b"SOM",
    }
}
