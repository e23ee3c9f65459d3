//! Items at some places of a list.
ghost use Rattle.std.specs.Prelude.{◌≡◌, vec_len, vec_capacity};
ghost use Rattle.cps_chunk.specs.Sparse.{renewed, AreWithin};

/// An item at a place of a list, which is counted from 0.
#[derive(Drop)]
pub struct SparseItem<T> {
    pub at: usize,
    pub item: T,
}

/// Puts each of these items at its place in a list, the last of them first.
pub fn put_all<T: Drop>(items: &mut Vec<T>, news: Vec<SparseItem<T>>)
    requires { AreWithin 0 (vec_len items.old) news.items }
    ensures items { items.new.items ≡ renewed 0 news.items items.old.items }
    ensures len { vec_len items.new ≡ vec_len items.old }
    ensures room { vec_capacity items.new ≡ vec_capacity items.old }
{
    let mut news = news;
    while let Some(new) = news.pop() {
        let SparseItem { at, item } = new;
        items[at] = item;
    }
}
