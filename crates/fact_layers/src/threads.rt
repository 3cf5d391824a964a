use crate::LayeredFacts;

/// Layered facts move between threads, and threads may share them: the call of `may_cross` is admitted for such types alone.
pub fn layered_facts_cross_threads(facts: &LayeredFacts) {
    may_cross(facts);
}

fn may_cross<T: Send + Sync>(_value: &T) {}
