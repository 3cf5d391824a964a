use journal::Commit;
use outside::DiskStep;

/// A replica whose disk failed: at which step, and the commit that was being written, which the disk may hold. A restart that fails writes none.
#[derive(Drop)]
pub struct Down {
    pub step: DiskStep,
    pub loose: Option<Commit>,
}
