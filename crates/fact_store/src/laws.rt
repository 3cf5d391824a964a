ghost use Rattle.std.specs.Prelude.{◌≡◌, ◌≤◌, ◌↔◌, ℕ, Bool, false, IsTrue, List, [], ◌∷◌, length, map};
ghost use Rattle.std.specs.List.{filter};
ghost use Rattle.std.specs.declared.cmp.Ordering.TheVariants.{Equal};
ghost use Rattle.base_bytes.specs.KeyOrder.{is_key, key_order};
ghost use Rattle.base_bytes.specs.declared.value.Value.{Value};
ghost use Rattle.fact_store.specs.declared.row.Row.{Row};
ghost use Rattle.fact_store.specs.declared.wanted.Wanted.{Wanted};
ghost use Rattle.fact_store.specs.Laws.{HoldsSame, IsElsewhere, LeavesAt, LeavesBase, LeavesTaken};
ghost use Rattle.fact_store.specs.Matching.{begins_with, has_named, is_at, selected};
ghost use Rattle.fact_store.specs.Rows.{are_keys, is_base};
ghost use Rattle.fact_store.specs.Sameness.{same_value};
ghost use Rattle.fact_store.specs.Writes.{created, deleted, revalued, updated};

/// The test of equal values is equality, and the order of keys ties a key with itself alone.
pub fn sameness_is_equality()
    ensures values { (value other : Value) → IsTrue (same_value value other) ↔ (value ≡ other) }
    ensures keys { (key other : Value) → IsTrue (is_key key) → (key_order key other ≡ Equal) ↔ (key ≡ other) }
{}

/// A base has at most one row of a fact and just these keys.
pub fn places_have_one_row()
    ensures { (fact : ℕ) (keys : List Value) (rows : List Row) → IsTrue (is_base rows) → length (filter (is_at fact keys) rows) ≤ 1 }
{}

/// A base is told by what stands at each place: two bases that hold the same there are one list.
pub fn bases_are_told_by_places()
    ensures { (rows others : List Row) → IsTrue (is_base rows) → IsTrue (is_base others) → HoldsSame rows others → rows ≡ others }
{}

/// Each write leaves a base.
pub fn writes_leave_bases()
    ensures create { (row : Row) (rows : List Row) → IsTrue (are_keys row.keys) → IsTrue (is_base rows) → LeavesBase (created row rows) }
    ensures update { (old : Wanted) (values : List Value) (rows : List Row) → IsTrue (is_base rows) → LeavesBase (updated old values rows) }
    ensures delete { (fact : ℕ) (keys : List Value) (rows : List Row) → IsTrue (is_base rows) → LeavesBase (deleted fact keys rows) }
{}

/// A write leaves all rows but its own: a test that does not hold there takes the same rows before it and after it.
pub fn writes_leave_other_rows()
    ensures create { (test : Row → Bool) (row : Row) (rows : List Row) → IsTrue (are_keys row.keys) → IsTrue (is_base rows) → test row ≡ false → LeavesTaken test rows (created row rows) }
    ensures update { (test : Row → Bool) (old : Wanted) (values : List Value) (rows : List Row) → IsElsewhere test old.fact old.keys → LeavesTaken test rows (updated old values rows) }
    ensures delete { (test : Row → Bool) (fact : ℕ) (keys : List Value) (rows : List Row) → IsElsewhere test fact keys → LeavesTaken test rows (deleted fact keys rows) }
{}

/// What was written stands at its fact and keys, alone.
pub fn writes_stand_at_their_keys()
    ensures create { (row : Row) (rows : List Row) → IsTrue (are_keys row.keys) → IsTrue (is_base rows) → LeavesAt row.fact row.keys (row ∷ []) (created row rows) }
    ensures update { (old : Wanted) (values : List Value) (rows : List Row)
        → LeavesAt old.fact old.keys (map (revalued old.fact old.keys values) (filter (is_at old.fact old.keys) rows)) (updated old values rows) }
    ensures delete { (fact : ℕ) (keys : List Value) (rows : List Row) → LeavesAt fact keys [] (deleted fact keys rows) }
{}

/// What a longer prefix of one fact finds, with the same named values or more, is a part of what the shorter one finds.
pub fn longer_prefixes_find_less()
    ensures { (shorter longer : Wanted) (rows : List Row) → shorter.fact ≡ longer.fact → IsTrue (begins_with shorter.keys longer.keys)
        → ((values : List Value) → IsTrue (has_named longer.values values) → IsTrue (has_named shorter.values values))
        → selected longer (selected shorter rows) ≡ selected longer rows }
{}
