// Laws over the definitions. Each is the contract of a function that does nothing.
ghost use Rattle.lb_alter.specs.Frame.{DepsStay, UntouchedStays, UsersStay, WriteDepsStay};
ghost use Rattle.lb_alter.specs.Laws.{
  CredentialsFit,
  FirstIsSound,
  FirstTablesFit,
  FitsFollow,
  StaysSound,
  TablesStayFit,
};
ghost use Rattle.lb_alter.specs.Steady.{IsSteady, plain_rules};
ghost use Rattle.lb_alter.specs.Stored.{StoredRules};
ghost use Rattle.lb_alter.specs.WorkedControls.{
  AreInUse,
  CalledIsInUse,
  MasksAreRefused,
  NamedIsInUse,
  OtherKindIsUnknown,
  PermissionsAreRefused,
  SourcesStandBetween,
  Switches,
};
ghost use Rattle.lb_alter.specs.WorkedAnswers.{AllAreRefused, AllLeave, DropsTouchUsers, ReadsThrough};

/// What some statements answer in a small catalogue.
pub fn worked_changes()
    ensures refused { (K : StoredRules) → AllAreRefused K }
    ensures touched { (K : StoredRules) → DropsTouchUsers K }
    ensures leave { (K : StoredRules) → AllLeave K }
    ensures through { (K : StoredRules) → ReadsThrough K }
{}

/// What statements on permissions and masks answer in a catalogue of two tables, and what is in use.
pub fn worked_controls()
    ensures permissions { (K : StoredRules) → PermissionsAreRefused K }
    ensures between { SourcesStandBetween }
    ensures masks { (K : StoredRules) → MasksAreRefused K }
    ensures kinds { (K : StoredRules) → OtherKindIsUnknown K }
    ensures switches { (K : StoredRules) → Switches K }
    ensures used { (K : StoredRules) → AreInUse K }
    ensures called { (K : StoredRules) → CalledIsInUse K }
    ensures named { (K : StoredRules) → NamedIsInUse K }
{}

/// A key that a change doesn't touch has the same record and the same rows afterwards.
pub fn untouched_stays()
    ensures { (K : StoredRules) → UntouchedStays K }
{}

/// No change takes a user's record away: a user who has one keeps one, also where nothing is left that was granted.
pub fn users_stay()
    ensures { (K : StoredRules) → UsersStay K }
{}

/// The catalogue with which every journal begins is sound.
pub fn first_is_sound()
    ensures { (K : StoredRules) → FirstIsSound K }
{}

/// What a statement depends on is the same where the records that it depends on are, and so is what the commit of a write depends
/// on.
pub fn dependencies_stay()
    ensures plans { DepsStay }
    ensures writes { WriteDepsStay }
{}

/// What is asked of the rules of names and types can be met.
pub fn some_rules_are_steady()
    ensures { IsSteady plain_rules }
{}

/// A change of a sound catalogue leaves a sound one.
pub fn changes_stay_sound()
    ensures { (K : StoredRules) → StaysSound K }
{}

/// In a sound catalogue the credentials of every user fit on every list of keys.
pub fn credentials_fit()
    ensures { (K : StoredRules) → CredentialsFit K }
{}

/// The tables with which every journal begins fit the first catalogue.
pub fn first_tables_fit()
    ensures { FirstTablesFit }
{}

/// Where the rows of all tables fit a sound catalogue, they fit it after each change.
pub fn changes_keep_fits()
    ensures { (K : StoredRules) → TablesStayFit K }
{}

/// Rows and credentials that fit on what a statement depends on fit every sound catalogue with the same records there.
pub fn fits_follow()
    ensures { (K : StoredRules) → FitsFollow K }
{}
