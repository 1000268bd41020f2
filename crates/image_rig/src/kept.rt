//! A record, and where its labels and its moved bytes stand.

use rig_api::Record;

#[derive(Drop)]
pub(crate) struct Kept {
    pub(crate) what: Record,
    pub(crate) labels_at: usize,
    pub(crate) labels_len: usize,
    pub(crate) moved_at: usize,
    pub(crate) moved_len: usize,
}
