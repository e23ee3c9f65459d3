//! Digits that a row of a listing may show, as they are kept.
ghost use Rattle.std.specs.Prelude.{◌≡◌, ◌<◌, ◌^◌, None, Some};

use std::marker::Model;

/// So many octal digits of a number.
#[derive(Clone, Copy, PartialEq, Eq)]
pub struct OctalDigits {
    pub count: u8,
    pub number: u64,
}

/// Digits, if there are some. They take less room than an option of digits does.
#[derive(Drop)]
pub struct Code {
    kept: KeptCode,
}

#[derive(Clone, Copy)]
enum KeptCode {
    Absent,
    Shown { count: u8, number: u64 },
}

impl Model for Code {
    ghost use Rattle.std.specs.Prelude.{Option};
    ghost use Rattle.cps_final.specs.declared.octal_digits.OctalDigits.{OctalDigits};
    ghost use Rattle.cps_final.specs.Code.DigitsKept.{code_in};

    ghost Value = { Option OctalDigits };

    ghost view = { λ code. code_in code.kept };
}

impl Code {
    /// None.
    pub(crate) fn absent() -> Code
        ensures { result ≡ None }
    {
        Code {
            kept: KeptCode::Absent,
        }
    }

    /// These digits.
    pub(crate) fn of(digits: OctalDigits) -> Code
        ensures { result ≡ Some digits }
    {
        Code {
            kept: KeptCode::Shown {
                count: digits.count,
                number: digits.number,
            },
        }
    }

    /// The digits, if there are some.
    pub fn digits(&self) -> Option<OctalDigits>
        ensures { result ≡ self.now }
    {
        match self.kept {
            KeptCode::Absent => None,
            KeptCode::Shown { count, number } => Some(OctalDigits { count, number }),
        }
    }
}

/// The digits of a peripheral processor's word, if there are some.
#[derive(Drop)]
pub struct ShortCode {
    kept: KeptShortCode,
}

#[derive(Clone, Copy)]
enum KeptShortCode {
    Absent,
    Shown { count: u8, number: u16 },
}

impl Model for ShortCode {
    ghost use Rattle.std.specs.Prelude.{Option};
    ghost use Rattle.cps_final.specs.declared.octal_digits.OctalDigits.{OctalDigits};
    ghost use Rattle.cps_final.specs.Code.DigitsKept.{short_code_in};

    ghost Value = { Option OctalDigits };

    ghost view = { λ code. short_code_in code.kept };
}

impl ShortCode {
    /// None.
    pub(crate) fn absent() -> ShortCode
        ensures { result ≡ None }
    {
        ShortCode {
            kept: KeptShortCode::Absent,
        }
    }

    /// These digits.
    pub(crate) fn of(digits: OctalDigits) -> ShortCode
        requires { digits.number < 2 ^ 16 }
        ensures { result ≡ Some digits }
    {
        ShortCode {
            kept: KeptShortCode::Shown {
                count: digits.count,
                number: digits.number as u16,
            },
        }
    }

    /// The digits, if there are some.
    pub fn digits(&self) -> Option<OctalDigits>
        ensures { result ≡ self.now }
    {
        match self.kept {
            KeptShortCode::Absent => None,
            KeptShortCode::Shown { count, number } => Some(OctalDigits {
                count,
                number: u64::from(number),
            }),
        }
    }
}
