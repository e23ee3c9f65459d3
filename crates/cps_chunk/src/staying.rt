//! How many chunks are the same in two divisions, from the front and from the end.
ghost use Rattle.std.specs.Prelude.{◌≡◌, ◌<◌, ◌≤◌, ◌^◌, length, reverse, sum};
ghost use Rattle.cps_chunk.specs.Staying.{same_front};

/// How many from the front are the same in both and lie within so many lines.
pub fn count_front(lines: usize, olds: &[usize], news: &[usize]) -> usize
    ensures same { result ≡ same_front lines olds.now news.now }
    ensures olds { result ≤ length olds.now }
    ensures news { result ≤ length news.now }
{
    let most = olds.len().min(news.len());
    let mut left = lines;
    for i in 0..most {
        let old = olds[i];
        if old != news[i] || old > left {
            return i;
        }
        left -= old;
    }
    most
}

/// How many from the end are the same in both and lie within so many lines.
pub fn count_back(lines: usize, olds: &[usize], news: &[usize]) -> usize
    ensures same { result ≡ same_front lines (reverse olds.now) (reverse news.now) }
    ensures olds { result ≤ length olds.now }
    ensures news { result ≤ length news.now }
{
    let most = olds.len().min(news.len());
    let mut left = lines;
    for i in 0..most {
        let old = olds[olds.len() - 1 - i];
        if old != news[news.len() - 1 - i] || old > left {
            return i;
        }
        left -= old;
    }
    most
}

/// The lines of some chunks.
pub fn lines_of(lengths: &[usize]) -> usize
    requires few { sum lengths.now < 2 ^ 63 }
    ensures { result ≡ sum lengths.now }
{
    let mut lines = 0;
    for length in lengths {
        lines += *length;
    }
    lines
}
