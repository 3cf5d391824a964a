use base_bytes::Text;

/// What the words of the command line ask for.
#[derive(Drop)]
pub enum Mode {
    /// Judges a policy: the name of its file.
    Check(Text),
    /// Runs a script under a policy: the names of the two files, and of a folder of journals where there is one.
    Run(Text, Text, Option<Text>),
}
