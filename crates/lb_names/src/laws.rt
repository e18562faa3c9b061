// Laws of the definitions of names and types. Each is the contract of a function that does nothing.
ghost use Rattle.std.specs.Prelude.{◌≡◌, Some, None, [], ◌∷◌, true};
ghost use Rattle.lb_stmt.specs.declared.write.Stmt.TheVariants as stmts;
ghost use Rattle.lb_names.specs.declared.refused.Refused.TheVariants.{BadLabel, Exists, Types, Unknown};
ghost use Rattle.lb_names.specs.Examples as e;
ghost use Rattle.lb_names.specs.Laws.{ColumnsStay, FormsAreQualified, FormsHaveAFrame, FormsKeepMentions, FormsKeepNames, FormsKeepTypes, MentionsAreMarked, MentionsAreThere, NamesHaveAFrame, NamesOutlastColumns, TypesHaveAFrame, TypesOutlastColumns, TypingCarriesMarks};
ghost use Rattle.lb_names.specs.Scopes.{Catalogue};
ghost use Rattle.lb_names.specs.Small.{a, k, q, small, table, w, x};
ghost use Rattle.lb_names.specs.StatementMarks.{marks_of};
ghost use Rattle.lb_names.specs.Statements.{mask_types_refused, names_refused, permission_names_refused, permission_qualified, permission_types_refused, types_refused};

/// What a statement mentions of the catalogue is what its names mention, in text order.
pub fn mentions_are_marked()
    ensures { MentionsAreMarked }
{}

/// The names that typing sees in a tree are the marks of the tree.
pub fn typing_carries_marks()
    ensures { (C : Catalogue) → TypingCarriesMarks C }
{}

/// The first refusal for names depends on the catalogue by what is mentioned alone.
pub fn names_have_a_frame()
    ensures { (C D : Catalogue) → NamesHaveAFrame C D }
{}

/// The first refusal for types depends on the catalogue by what is mentioned alone.
pub fn types_have_a_frame()
    ensures { (C D : Catalogue) → TypesHaveAFrame C D }
{}

/// The qualified form of a permission or a mask depends on the catalogue by what is mentioned alone.
pub fn forms_have_a_frame()
    ensures { (C D : Catalogue) → FormsHaveAFrame C D }
{}

/// The qualified form of a permission or a mask mentions what is mentioned as it is written.
pub fn forms_keep_mentions()
    ensures { (C : Catalogue) → FormsKeepMentions C }
{}

/// Where the names of a permission or a mask are not refused, each column of its qualified form has a correlation name.
pub fn forms_are_qualified()
    ensures { (C : Catalogue) → FormsAreQualified C }
{}

/// Where the names of a permission or a mask are not refused, those of its qualified form are not, over the table by the same
/// correlation name, written or not.
pub fn forms_keep_names()
    ensures { (C : Catalogue) → FormsKeepNames C }
{}

/// Where the names of a permission or a mask are not refused, its qualified form is refused for types exactly where the form as
/// written is, and for the same node, over the table by the same correlation name, written or not.
pub fn forms_keep_types()
    ensures { (C : Catalogue) → FormsKeepTypes C }
{}

/// A column that is qualified means what it meant, where no two items in sight have one correlation name.
pub fn columns_stay()
    ensures { (C : Catalogue) → ColumnsStay C }
{}

/// Where the names are not refused, the tables, policies and labels that are mentioned are there.
pub fn mentions_are_there()
    ensures { (C : Catalogue) → MentionsAreThere C }
{}

/// The names of a qualified condition stay unrefused where tables get more columns at their ends.
pub fn names_outlast_columns()
    ensures { (C D : Catalogue) → NamesOutlastColumns C D }
{}

/// A qualified condition keeps its types where tables get more columns at their ends that hold no labels.
pub fn types_outlast_columns()
    ensures { (C D : Catalogue) → TypesOutlastColumns C D }
{}

/// Names and types of statements, permissions and masks over a small catalogue, a condition that is qualified, and the columns
/// named through FROM items, computed from the definitions.
pub fn worked_names()
    ensures on_before_its_table { names_refused small e.on_before_its_table ≡ Some (Unknown w) }
    ensures column_before_targets { names_refused small e.column_before_targets ≡ Some (Unknown x) }
    ensures target_twice { names_refused small e.target_twice ≡ Some (Exists a) }
    ensures no_label_text { names_refused small e.no_label_text ≡ Some (BadLabel 0) }
    ensures policy_before_text { names_refused small e.policy_before_text ≡ Some (Unknown q) }
    ensures column_of_where { names_refused small e.column_of_where ≡ Some (Unknown x) }
    ensures target_by_its_alias { names_refused small e.target_by_its_alias ≡ Some (Unknown k) }
    ensures output_name_inside { names_refused small e.output_name_inside ≡ Some (Unknown x) }
    ensures enclosing_name_reused { permission_names_refused small (table k) e.enclosing_name_reused ≡ Some (Exists w) }
    ensures star_beside_group { types_refused small e.star_beside_group ≡ None }
    ensures sum_in_where { types_refused small e.sum_in_where ≡ Some (Types 3) }
    ensures star_in_sum { types_refused small e.star_in_sum ≡ Some (Types 3) }
    ensures sum_in_on { types_refused small e.sum_in_on ≡ Some (Types 8) }
    ensures subquery_in_items { types_refused small e.subquery_in_items ≡ Some (Types 4) }
    ensures group_of_outer_column { types_refused small e.group_of_outer_column ≡ Some (Types 8) }
    ensures too_many_values { types_refused small e.too_many_values ≡ Some (Types 2) }
    ensures stored_star { permission_types_refused small (table k) e.stored_star ≡ Some (Types 3) }
    ensures stored_star_beside_group { permission_types_refused small (table k) e.stored_star_beside_group ≡ Some (Types 2) }
    ensures count_in_mask { mask_types_refused small (table k) a e.count_in_mask ≡ Some (Types 6) }
    ensures qualified { permission_qualified small (table k) e.unqualified ≡ e.with_its_names }
    ensures too_many_outputs { types_refused small e.too_many_outputs ≡ Some (Types 0) }
    ensures by_a_label { types_refused small (stmts.Select e.by_a_label) ≡ Some (Types 3) }
    ensures by_another_column { types_refused small (stmts.Select e.by_another_column) ≡ Some (Types 2) }
{}
