/// A caller added an amount, and was told the counter behind it.
#[derive(Clone, Copy)]
pub struct Turn {
    pub caller: u32,
    /// How many idle turns came right before it.
    pub idle: u64,
    pub amount: u64,
    pub reply: u64,
}
