//! What puts files in their places.
ghost use Rattle.std.specs.Prelude.{◌≡◌, ℕ, Bool, List, [], Option, Some, IfSome, IfOk, OnOk, OnErr};
ghost use Rattle.cps_words.specs.Placing.{Placed, with_placed, one_more_on_ok, one_less};

use std::io;
use std::io::Write;

/// What puts files in their places. A file is made as a draft, which isn't seen under the file's name; then it is placed
/// or discarded.
pub trait Targets {
    ghost use Rattle.std.specs.Prelude.{◌≡◌, ℕ, Bool, List, [], Option, Some, IfSome, IfOk, OnOk, OnErr};
    ghost use Rattle.cps_words.specs.Placing.{Placed, with_placed, one_more_on_ok, one_less};

    /// A file that isn't in its place yet. What was written to it may be lost at a power failure until it is flushed.
    type Draft: Write + Drop;

    // Which files were put in their places, one after another, None where that isn't known.
    ghost placed: { Self → Option (List Placed) };

    // How many drafts were neither placed nor discarded, None where that isn't known.
    ghost waiting: { Self → Option ℕ };

    // Whether two names lead to one file that has a text or would get one, None where that isn't known.
    ghost same: { Self → List ℕ → List ℕ → Option Bool };

    /// Whether two names lead to one file that has a text or would get one. To a device many names may lead.
    fn is_same(&self, one: &str, other: &str) -> bool
        ensures { IfSome (same self.now one.now other.now) (λ is. result ≡ is) };

    /// Makes a draft of the file of that name, with nothing in it. Where `placed` is known, so are the bytes of each draft.
    fn create(&mut self, name: &str) -> io::Result<Self::Draft>
        ensures empty { IfOk result (λ draft. IfSome (placed self.old) (λ _. Self.Draft.contents draft ≡ Some [])) }
        ensures placed { placed self.new ≡ placed self.old }
        ensures waiting { waiting self.new ≡ one_more_on_ok result (waiting self.old) };

    /// Puts a draft in the place of the file of that name. After an error the file is as it was, and the draft is discarded.
    fn place(&mut self, name: &str, draft: Self::Draft) -> io::Result<()>
        ensures placed { OnOk result (placed self.new ≡ with_placed name.now (Self.Draft.contents draft) (placed self.old)) }
        ensures unplaced { OnErr result (placed self.new ≡ placed self.old) }
        ensures waiting { waiting self.new ≡ one_less (waiting self.old) };

    /// Takes a draft of the file of that name away. The file is as it was.
    fn discard(&mut self, name: &str, draft: Self::Draft)
        ensures placed { placed self.new ≡ placed self.old }
        ensures waiting { waiting self.new ≡ one_less (waiting self.old) };
}
