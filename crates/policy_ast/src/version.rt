/// The version of the policy language that a document is written in, which its front matter names.
#[derive(Clone, Copy)]
pub enum Version {
    Two,
}
