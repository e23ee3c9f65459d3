//! Names of an export that lead to one file.
ghost use Rattle.std.specs.Prelude.{◌≡◌, All, IfNone, IfSome, map};
ghost use Rattle.cps_words.specs.Export.{wanted_of};
ghost use Rattle.cps_words.specs.Outputs.{name_of};
ghost use Rattle.cps_words.specs.Same as same;

use crate::export::Export;
use crate::targets::Targets;
use std::alloc::{AllocError, Global};

/// The names of standard input and standard output.
const STANDARD_INPUT: &str = "/dev/stdin";

const STANDARD_OUTPUT: &str = "/dev/stdout";

/// Two names of an export that lead to one file, so that a text would be lost.
#[derive(Clone, Copy)]
pub enum Clash<'a> {
    /// The name of the source, and that under which a text is to be written.
    Source(&'a str, &'a str),
    /// The names under which two texts are to be written.
    Texts(&'a str, &'a str),
}

impl Clash<'_> {
    /// What is told of the names, with no newline. Control characters stand in it as they are.
    pub fn text(&self, alloc: Global) -> Result<String, AllocError> {
        match self {
            Clash::Source(one, other) => {
                format!(in alloc; "cannot write {other}: it is the same file as {one}, the source")
            }
            Clash::Texts(one, other) => {
                format!(in alloc;
                    "cannot write {other}: it is the same file as {one}, where another text goes"
                )
            }
        }
    }
}

/// Two names of an export that lead to one file, None where each text has a file of its own that isn't the source. Standard output
/// is one of them where a part is wanted, and standard input where the source has no file.
pub fn find_clash<'a, T: Targets>(targets: &T, export: Export<'a>) -> Option<Clash<'a>>
    ensures apart { IfNone result (same.KeepsAll (T.same targets.now) (name_of export.entry.source) (wanted_of export.entry)) }
    ensures clash { IfSome result (same.Clashes (T.same targets.now) (name_of export.entry.source) (wanted_of export.entry)) }
{
    let source = export.source.unwrap_or(STANDARD_INPUT);
    let texts = text_names(export);
    if let Some(text) = find_same(targets, source, &texts) {
        return Some(Clash::Source(source, text));
    }
    match find_replaced(targets, &texts) {
        Some((one, other)) => Some(Clash::Texts(one, other)),
        None => None,
    }
}

/// The names under which texts are written, None where one isn't wanted.
fn text_names<'a>(export: Export<'a>) -> [Option<&'a str>; 6]
    ensures { map name_of result ≡ same.text_names (wanted_of export.entry) }
{
    let outputs = export.outputs;
    let part = match export.part {
        Some(_) => Some(STANDARD_OUTPUT),
        None => None,
    };
    [
        outputs.listing,
        outputs.binary,
        outputs.symbols,
        outputs.flags,
        outputs.page,
        part,
    ]
}

/// The first of the names that are given that leads where a name does.
fn find_same<'a, T: Targets>(targets: &T, name: &str, names: &[Option<&'a str>]) -> Option<&'a str>
    ensures apart { IfNone result (All (same.IsApart (T.same targets.now) name.now) (map name_of names.now)) }
    ensures meets { IfSome result (λ other. same.MayMeet (T.same targets.now) name.now (map name_of names.now) other.now) }
{
    match names {
        [] => None,
        [Some(other), ..] if targets.is_same(name, *other) => Some(*other),
        [_, rest @ ..] => find_same(targets, name, rest),
    }
}

/// The first two of the names that are given of which one text would take the place of the other.
fn find_replaced<'a, T: Targets>(
    targets: &T,
    names: &[Option<&'a str>],
) -> Option<(&'a str, &'a str)>
    ensures apart { IfNone result (same.AreApart (same.replaces (T.same targets.now)) (map name_of names.now)) }
    ensures clash { IfSome result (λ two. same.MayClash (same.replaces (T.same targets.now)) (map name_of names.now) two.0.now two.1.now) }
{
    match names {
        [] => None,
        [None, rest @ ..] => find_replaced(targets, rest),
        [Some(name), rest @ ..] => match find_replacing(targets, *name, rest) {
            Some(other) => Some((*name, other)),
            None => find_replaced(targets, rest),
        },
    }
}

/// The first of the names that are given where a text would take the place of that of a name, or give place to it.
fn find_replacing<'a, T: Targets>(
    targets: &T,
    name: &str,
    names: &[Option<&'a str>],
) -> Option<&'a str>
    ensures apart { IfNone result (All (same.IsApart (same.replaces (T.same targets.now)) name.now) (map name_of names.now)) }
    ensures meets { IfSome result (λ other. same.MayMeet (same.replaces (T.same targets.now)) name.now (map name_of names.now) other.now) }
{
    match names {
        [] => None,
        [Some(other), ..] if replaces(targets, name, *other) => Some(*other),
        [_, rest @ ..] => find_replacing(targets, name, rest),
    }
}

/// Whether of two texts one would take the place of the other.
fn replaces<T: Targets>(targets: &T, one: &str, other: &str) -> bool
    ensures { IfSome (same.replaces (T.same targets.now) one.now other.now) (λ is. result ≡ is) }
{
    !(is_open_already(one) && is_open_already(other)) && targets.is_same(one, other)
}

/// Whether a name is that of what a process has open already.
pub fn is_open_already(name: &str) -> bool
    ensures { result ≡ same.is_open_already name.now }
{
    name.starts_with("/dev/std") || name.starts_with("/dev/fd/") || name.starts_with("/proc/")
}
