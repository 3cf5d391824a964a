use crate::kept::Kept;
use crate::view::View;
use atomic_table::{Join, Play, Split, TableRule};
use std::marker::PhantomData;
use std::snapshot::Snapshot;

/// The rule of the table: there is one history, which every seat has seen a beginning of.
pub struct InTurn<T> {
    of: PhantomData<T>,
}

impl<T: Kept> TableRule<Option<T>, View<T::Turn, T::Opening>, Snapshot<T>> for InTurn<T> {
    ghost use Rattle.std.specs.Prelude.{[], ◌∷◌};
    ghost use Rattle.turn_lock.specs.Rule.{Turning, told};
    ghost use Rattle.turn_lock.specs.working.Steps.{blank};

    ghost holds = { λ key. Turning (told T.turns T.idle T.opening T.caller T.before) (T.opening key.value) };

    ghost first = { λ key. blank [] [] (T.opening key.value ∷ []) };
}

/// A load that tells nothing.
pub struct Same;

impl<S, V> Play<S, V> for Same {
    ghost use Rattle.std.specs.Prelude.{◌≡◌};

    ghost then = { λ st m n m'. m' ≡ m };
}

/// A caller's number is drawn.
pub struct Number<T> {
    of: PhantomData<T>,
}

impl<T: Kept> Play<Option<T>, View<T::Turn, T::Opening>> for Number<T> {
    ghost use Rattle.turn_lock.specs.Rule.{told};
    ghost use Rattle.turn_lock.specs.working.Steps.{numbering};

    ghost then = { numbering (told T.turns T.idle T.opening T.caller T.before) };
}

/// A ticket is drawn.
pub struct Ticket<T> {
    of: PhantomData<T>,
}

impl<T: Kept> Play<Option<T>, View<T::Turn, T::Opening>> for Ticket<T> {
    ghost use Rattle.turn_lock.specs.Rule.{told};
    ghost use Rattle.turn_lock.specs.working.Steps.{ticketing};

    ghost then = { ticketing (told T.turns T.idle T.opening T.caller T.before) };
}

/// A look whether the turn has come. Where it has, the seat takes the value.
pub struct Look<T> {
    of: PhantomData<T>,
}

impl<T: Kept> Play<Option<T>, View<T::Turn, T::Opening>> for Look<T> {
    ghost use Rattle.turn_lock.specs.Rule.{told};
    ghost use Rattle.turn_lock.specs.working.Steps.{looking};

    ghost then = { looking (told T.turns T.idle T.opening T.caller T.before) };
}

/// The turn ends, and the value goes home.
pub struct Release<T> {
    of: PhantomData<T>,
}

impl<T: Kept> Play<Option<T>, View<T::Turn, T::Opening>> for Release<T> {
    ghost use Rattle.turn_lock.specs.Rule.{told};
    ghost use Rattle.turn_lock.specs.working.Steps.{releasing};

    ghost then = { releasing (told T.turns T.idle T.opening T.caller T.before) };
}

/// The pasts of two joined seats become one.
pub struct Settle<T> {
    of: PhantomData<T>,
}

impl<T: Kept> Play<Option<T>, View<T::Turn, T::Opening>> for Settle<T> {
    ghost use Rattle.turn_lock.specs.Rule.{told};
    ghost use Rattle.turn_lock.specs.working.Steps.{settling};

    ghost then = { settling (told T.turns T.idle T.opening T.caller T.before) };
}

/// A new seat has seen what the old one has.
pub struct Cut;

impl<X, O> Split<View<X, O>> for Cut {
    ghost use Rattle.turn_lock.specs.working.Steps.{split_view};

    ghost left = { λ v. v };

    ghost right = { split_view };
}

/// A seat keeps the past of another one beside its own.
pub struct Glue;

impl<X, O> Join<View<X, O>> for Glue {
    ghost use Rattle.turn_lock.specs.working.Steps.{joined, spent_view};

    ghost both = { joined };

    ghost spent = { spent_view };
}
