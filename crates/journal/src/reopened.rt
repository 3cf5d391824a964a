use crate::end::End;

/// What a journal's disk was read as again: where its commits end.
#[derive(Drop)]
pub struct Reopened {
    pub(crate) end: End,
}
