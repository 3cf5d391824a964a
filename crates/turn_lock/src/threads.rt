use crate::kept::Kept;
use crate::lock::TurnLock;
use crate::pass::Pass;

fn is_sent<X: Send>() {}

fn is_shared<X: Sync>() {}

/// Where the value may go to another thread, threads may share the lock, and the lock and its passes may go there too. It does nothing.
pub fn cross_threads<T: Kept + Send>() {
    is_sent::<TurnLock<T>>();
    is_shared::<TurnLock<T>>();
    is_sent::<Pass<T>>();
}
