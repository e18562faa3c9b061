// Laws over the definitions. Each is the contract of a function that does nothing but name the laws that it rests on.
ghost use Rattle.std.specs.Prelude.{ℕ, List};
ghost use Rattle.std.specs.declared.option.Option.{Option};
ghost use Rattle.lb_base.specs.declared.value.Value.{Value};
ghost use Rattle.lb_cat.specs.Catalog.{Cat, Table, Policy};
ghost use Rattle.lb_answer.specs.Basis.{Basis};
ghost use Rattle.lb_base.specs.Evaluated.{Evaluated};
ghost use Rattle.lb_answer.specs.Writes.{Written};
ghost use Rattle.lb_fits.specs.Laws.{DeletedFits, DeletesFit, StoredFits, NewFits, KeysAgree, UpdatedFits, InsertedFits};
ghost use Rattle.lb_fits.specs.Masks.{SoundMasksFit};
ghost use Rattle.lb_fits.specs.Statements.{FitsAreKnown, UpdatesFit, InsertsFit, WritesFit, StaysReady};

/// The rows that a DELETE leaves fit their table where its rows did: they are some of these, their keys stay different, and they
/// have no more cells. So after a DELETE that is answered with rows all tables fit where all did before.
pub fn deletes_keep_fits()
    ensures rows { DeletedFits }
    ensures statements { DeletesFit }
{
    lb_answer::candidates_are_kept_rows();
}

/// The label that a write stores is a label of the table's policy, be it the given one or the session's own, where the given one is
/// null or a label of it and the session's own is one.
pub fn stored_labels_fit<S>()
    ensures { (p : Option Policy) (b : Basis S) (t : Table) (l stored : Value) → StoredFits p b t l stored }
{}

/// The row that a candidate makes fits its table, where its old row does, and each value that is given is null or of the kind of
/// its column: no null where none may be, no text that is too wide, and the stored label in the label column.
pub fn candidate_rows_fit<S>()
    ensures { (C : Cat) (t : Table) (b : Basis S) (places : List ℕ) (old : Option (List Value)) (source : S) (new : List Value) → NewFits C t b places old source new }
{}

/// Where each row fits its table, the test of keys that a write makes and the one that a table's rows keep agree: no two rows have
/// one key exactly where the keys differ.
pub fn tests_of_keys_agree()
    ensures { KeysAgree }
{}

/// The rows that an UPDATE leaves fit their table where its rows did, and each value that is set is null or of the kind of its
/// column: new rows fit, the others stay, keys are tested, and there are as many rows as before.
pub fn updated_rows_fit()
    ensures { UpdatedFits }
{
    lb_answer::candidates_are_kept_rows();
}

/// The rows that an INSERT leaves fit their table where its rows did, and each value that is given is null or of the kind of its
/// column: new rows fit, and keys and cells are tested.
pub fn inserted_rows_fit<S>()
    ensures { (C : Cat) (t : Table) (b : Basis S) (places : List ℕ) (sources : Evaluated (List S)) (rows : List (List Value)) (w : Written) → InsertedFits C t b places sources rows w }
{}

/// Where a session writes over a sound catalogue whose tables fit, with labels of its policies' shapes, and the rules of types
/// refuse nothing, every statement that is answered with new rows leaves all tables fitting: UPDATE, INSERT with VALUES and with a
/// query, and DELETE. And all that was asked holds again of what it leaves.
pub fn writes_keep_fits()
    ensures updates { UpdatesFit }
    ensures inserts { InsertsFit }
    ensures statements { WritesFit }
    ensures ready { StaysReady }
{
    lb_answer::candidates_are_kept_rows();
    lb_kinds::typed_writes_give_values_of_their_columns();
    lb_kinds::typed_selects_give_outputs_of_their_kinds();
    lb_kinds::settings_agree_with_names();
    lb_kinds::evaluation_begins_with_rows_in_sight();
}

/// A catalogue of names that has the columns of a sound catalogue knows its tables, rows and labels where all tables fit, and there
/// are no rows under a name that is no table's.
pub fn fitting_rows_are_known()
    ensures { FitsAreKnown }
{}

/// The masks of a sound catalogue fit their columns, where a catalogue of names has its columns, the rules by which changes check the
/// types of a mask let none pass that the rules of types refuse, and the DATE literals of masks are days.
pub fn sound_masks_fit()
    ensures { SoundMasksFit }
{
    lb_kinds::typed_writes_give_values_of_their_columns();
}
