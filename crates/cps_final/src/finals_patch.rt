//! What an edit changes of what stands after the last line.
use crate::changes::Changes;
use crate::storage::Storage;

/// What stands after the last line now and didn't before: keys with other answers, and the blocks and literals, if these are others.
pub struct FinalsPatch {
    pub changes: Changes,
    pub storage: Option<Storage>,
}

// Written out: what holds it drops it by a call.
impl Drop for FinalsPatch {
    fn drop(self) {
        let FinalsPatch { changes, storage } = self;
        drop(changes);
        drop(storage);
    }
}
