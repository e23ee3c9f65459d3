//! Items in the place of others, without memory, and room for more.
ghost use Rattle.std.specs.Prelude.{◌≡◌, ◌+◌, ◌-◌, ◌≤◌, ◌++◌, [], ◌∷◌, IfOk, OnOk, take, drop, vec_len, vec_capacity};
ghost use Rattle.cps_live.specs.Code.Editing.{put_between};

use cps_edit::Exchange;
use std::alloc::{AllocError, Global};

/// A list of one item.
pub fn list_of<T: Drop>(alloc: Global, item: T) -> Result<Vec<T>, AllocError>
    ensures { IfOk result (λ list. list.items ≡ item ∷ []) }
{
    let mut list = Vec::with_capacity(alloc, 1)?;
    list.push(item)?;
    Ok(list)
}

/// Room for so many items more. A list that is full grows by an eighth at least.
pub fn make_room_for<T: Drop>(items: &mut Vec<T>, count: usize) -> Result<(), AllocError>
    ensures items { items.new.items ≡ items.old.items }
    ensures room { OnOk result (vec_len items.new + count ≤ vec_capacity items.new) }
{
    if count <= items.capacity() - items.len() {
        return Ok(());
    }
    items.reserve_exact(count.max(items.len() / 8 + 4))
}

/// Puts items in the place of those after the first `keep` up to the first `from`. Where as many come as go, no other is moved.
pub fn put_at<T: Drop>(items: &mut Vec<T>, keep: usize, from: usize, news: Vec<T>)
    requires ordered { keep ≤ from }
    requires within { from ≤ vec_len items.old }
    requires room { vec_len items.old + vec_len news ≤ vec_capacity items.old + (from - keep) }
    ensures { items.new.items ≡ put_between keep from news.items items.old.items }
{
    if news.len() == from - keep {
        return replace_at(items, keep, news);
    }
    items.drain(keep..from);
    insert_at(items, keep, news);
}

/// Puts items in the place of as many after the first `keep`.
fn replace_at<T: Drop>(items: &mut Vec<T>, keep: usize, news: Vec<T>)
    requires { keep + vec_len news ≤ vec_len items.old }
    ensures { items.new.items ≡ take keep items.old.items ++ (news.items ++ drop (keep + vec_len news) items.old.items) }
{
    let mut news = news;
    while let Some(item) = news.pop() {
        let at = keep + news.len();
        items[at] = item;
    }
}

/// Puts items behind the first `from`. One is inserted; more come behind the last, and change places with those that they are to stand in front of.
fn insert_at<T: Drop>(items: &mut Vec<T>, from: usize, news: Vec<T>)
    requires within { from ≤ vec_len items.old }
    requires room { vec_len items.old + vec_len news ≤ vec_capacity items.old }
    ensures { items.new.items ≡ take from items.old.items ++ (news.items ++ drop from items.old.items) }
{
    let len = items.len();
    push_all(items, news);
    let exchange = Exchange {
        keep: from,
        mid: len,
        from: items.len(),
    };
    exchange.turn(items);
}

/// Puts items behind the last.
fn push_all<T: Drop>(items: &mut Vec<T>, news: Vec<T>)
    requires { vec_len items.old + vec_len news ≤ vec_capacity items.old }
    ensures { items.new.items ≡ items.old.items ++ news.items }
{
    for item in news {
        items.push_reserved(item);
    }
}
