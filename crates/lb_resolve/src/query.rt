// One pass over the names of queries, conditions and expressions, in text order. The recursion goes as deep as the text is nested.
ghost use Rattle.std.specs.Prelude.{◌≡◌, [], ◌∷◌, ◌++◌, IfOk};
ghost use Rattle.lb_tree.specs.Folds.{chain_of};
ghost use Rattle.lb_names.specs.Marks as marks;
ghost use Rattle.lb_names.specs.Sights as sights;
ghost use Rattle.lb_resolve.specs.Passing.{Passes};
ghost use Rattle.lb_resolve.specs.Parts as parts;

use crate::mark::Walk;
use crate::stop::Stop;
use lb_base::{Listing, Name, Names, NoMemory};
use lb_names::Seen;
use lb_scope::{Sight, calls, correlation, table_of, tables_of_chain};
use lb_tree::{Arm, Atom, Chain, Choice, Column, Cond, Expr, Item, Join, Query, Signed, Tab};
use sqlite_items::Boxed;

/// Expressions.
impl Walk<'_> {
    /// The names in an expression.
    #[tactic(auto, using(crate::proofs::Rules::expressions))]
    #[cycle(names)]
    pub fn expr(&self, expr: &Expr, sight: &Sight) -> Result<(), Stop>
        ensures { Passes result (parts.in_expr self.now expr.now sight.now) }
    {
        match expr {
            Expr::Atom(atom) => self.atom(atom, sight),
            Expr::Sum(list) => self.sum(list.as_slice(), sight),
            Expr::Concat(list) => self.exprs(list.as_slice(), sight),
            Expr::Product(list) => self.exprs(list.as_slice(), sight),
            Expr::Case(arms, otherwise) => {
                self.arms(arms.as_slice(), sight)?;
                self.maybe_expr(otherwise, sight)
            }
            Expr::Match(operand, choices, otherwise) => {
                self.expr(operand.get(), sight)?;
                self.choices(choices.as_slice(), sight)?;
                self.maybe_expr(otherwise, sight)
            }
            Expr::Aggregate(_, part) => self.expr(part.get(), sight),
            Expr::Substr(text, from, length) => {
                self.expr(text.get(), sight)?;
                self.expr(from.get(), sight)?;
                self.maybe_expr(length, sight)
            }
            Expr::Apply(_, part) => self.expr(part.get(), sight),
            Expr::Coalesce(list) => self.exprs(list.as_slice(), sight),
        }
    }

    /// The names in a leaf. SECLABEL_TO_CHAR names its policy before its column.
    #[tactic(auto, using(crate::proofs::Rules::passing))]
    fn atom(&self, atom: &Atom, sight: &Sight) -> Result<(), Stop>
        ensures { Passes result (parts.in_atom self.now atom.now sight.now) }
    {
        match atom {
            Atom::Column(column) => self.ask_column(sight.seen(), column),
            Atom::SecLabel(policy, text) => self.ask_label_text(policy, text),
            Atom::SecLabelByName(policy, label) => self.ask_label_name(policy, label),
            Atom::SecLabelToChar(policy, column) => {
                self.ask_label_column(policy, column)?;
                self.ask_column(sight.seen(), column)
            }
            _ => Ok(()),
        }
    }

    /// The names in some expressions.
    #[tactic(auto, using(crate::proofs::Rules::passing))]
    #[cycle(names)]
    pub fn exprs(&self, list: &[Expr], sight: &Sight) -> Result<(), Stop>
        ensures { Passes result (parts.of_all (parts.in_expr self.now) list.now sight.now) }
    {
        for part in list {
            self.expr(part, sight)?;
        }
        Ok(())
    }

    #[tactic(auto, using(crate::proofs::Rules::passing))]
    #[cycle(names)]
    fn maybe_expr(&self, part: &Option<Boxed<Expr>>, sight: &Sight) -> Result<(), Stop>
        ensures { Passes result (parts.of_maybe (parts.in_expr self.now) part.now sight.now) }
    {
        match part {
            None => Ok(()),
            Some(part) => self.expr(part.get(), sight),
        }
    }

    #[tactic(auto, using(crate::proofs::Rules::passing))]
    #[cycle(names)]
    fn sum(&self, list: &[Signed], sight: &Sight) -> Result<(), Stop>
        ensures { Passes result (parts.of_all (parts.in_signed self.now) list.now sight.now) }
    {
        for part in list {
            self.signed(part, sight)?;
        }
        Ok(())
    }

    #[tactic(auto, using(crate::proofs::Rules::nodes))]
    #[cycle(names)]
    fn signed(&self, part: &Signed, sight: &Sight) -> Result<(), Stop>
        ensures { Passes result (parts.in_signed self.now part.now sight.now) }
    {
        self.expr(&part.part, sight)
    }

    #[tactic(auto, using(crate::proofs::Rules::passing))]
    #[cycle(names)]
    fn arms(&self, arms: &[Arm], sight: &Sight) -> Result<(), Stop>
        ensures { Passes result (parts.of_all (parts.in_arm self.now) arms.now sight.now) }
    {
        for arm in arms {
            self.arm(arm, sight)?;
        }
        Ok(())
    }

    #[tactic(auto, using(crate::proofs::Rules::nodes))]
    #[cycle(names)]
    fn arm(&self, arm: &Arm, sight: &Sight) -> Result<(), Stop>
        ensures { Passes result (parts.in_arm self.now arm.now sight.now) }
    {
        self.cond(&arm.when, sight)?;
        self.expr(&arm.result, sight)
    }

    #[tactic(auto, using(crate::proofs::Rules::passing))]
    #[cycle(names)]
    fn choices(&self, choices: &[Choice], sight: &Sight) -> Result<(), Stop>
        ensures { Passes result (parts.of_all (parts.in_choice self.now) choices.now sight.now) }
    {
        for choice in choices {
            self.choice(choice, sight)?;
        }
        Ok(())
    }

    #[tactic(auto, using(crate::proofs::Rules::nodes))]
    #[cycle(names)]
    fn choice(&self, choice: &Choice, sight: &Sight) -> Result<(), Stop>
        ensures { Passes result (parts.in_choice self.now choice.now sight.now) }
    {
        self.expr(&choice.when, sight)?;
        self.expr(&choice.result, sight)
    }
}

/// Conditions.
impl Walk<'_> {
    /// The names in a condition.
    #[tactic(auto, using(crate::proofs::Rules::conditions))]
    #[cycle(names)]
    pub fn cond(&self, cond: &Cond, sight: &Sight) -> Result<(), Stop>
        ensures { Passes result (parts.in_cond self.now cond.now sight.now) }
    {
        match cond {
            Cond::Or(list) => self.conds(list.as_slice(), sight),
            Cond::And(list) => self.conds(list.as_slice(), sight),
            Cond::Not(part) => self.cond(part.get(), sight),
            Cond::Exists(query) => self.query(query.get(), sight),
            Cond::Compare(_, left, right) => {
                self.expr(left.get(), sight)?;
                self.expr(right.get(), sight)
            }
            Cond::CompareQuery(_, left, query) => {
                self.expr(left.get(), sight)?;
                self.query(query.get(), sight)
            }
            Cond::IsNull(part) => self.expr(part.get(), sight),
            Cond::InQuery(part, query) => {
                self.expr(part.get(), sight)?;
                self.query(query.get(), sight)
            }
            Cond::InList(part, list) => {
                self.expr(part.get(), sight)?;
                self.exprs(list.as_slice(), sight)
            }
            Cond::Between(part, low, high) => {
                self.expr(part.get(), sight)?;
                self.expr(low.get(), sight)?;
                self.expr(high.get(), sight)
            }
        }
    }

    #[tactic(auto, using(crate::proofs::Rules::passing))]
    #[cycle(names)]
    fn conds(&self, list: &[Cond], sight: &Sight) -> Result<(), Stop>
        ensures { Passes result (parts.of_all (parts.in_cond self.now) list.now sight.now) }
    {
        for part in list {
            self.cond(part, sight)?;
        }
        Ok(())
    }

    #[tactic(auto, using(crate::proofs::Rules::passing))]
    #[cycle(names)]
    fn maybe_cond(&self, part: &Option<Boxed<Cond>>, sight: &Sight) -> Result<(), Stop>
        ensures { Passes result (parts.of_maybe (parts.in_cond self.now) part.now sight.now) }
    {
        match part {
            None => Ok(()),
            Some(part) => self.cond(part.get(), sight),
        }
    }
}

/// Queries.
impl Walk<'_> {
    /// The names in a query that stands where this is in sight: select list, FROM, WHERE, GROUP BY, HAVING.
    #[tactic(auto, using(crate::proofs::Rules::queries))]
    #[cycle(names)]
    pub fn query(&self, query: &Query, outer: &Sight) -> Result<(), Stop>
        ensures { Passes result (parts.in_query self.now query.now outer.now) }
    {
        let inner = outer.inside(self.alloc, query.from.as_slice())?;
        self.items(query.items.as_slice(), &inner)?;
        self.chains(query.from.as_slice(), outer, &inner)?;
        self.maybe_cond(&query.filter, &inner)?;
        self.group(query.group.as_slice(), inner.seen())?;
        self.maybe_cond(&query.having, &inner)
    }

    #[tactic(auto, using(crate::proofs::Rules::passing))]
    #[cycle(names)]
    fn items(&self, items: &[Item], sight: &Sight) -> Result<(), Stop>
        ensures { Passes result (parts.of_all (parts.in_item self.now) items.now sight.now) }
    {
        for item in items {
            self.item(item, sight)?;
        }
        Ok(())
    }

    #[tactic(auto, using(crate::proofs::Rules::nodes))]
    #[cycle(names)]
    fn item(&self, item: &Item, sight: &Sight) -> Result<(), Stop>
        ensures { Passes result (parts.in_item self.now item.now sight.now) }
    {
        match item {
            Item::Everything => Ok(()),
            Item::AllOf(name) => self.ask_star(sight.own(), name),
            Item::Value(value, _) => self.expr(value, sight),
        }
    }

    #[tactic(auto, using(crate::proofs::Rules::passing))]
    fn group(&self, columns: &[Column], seen: &[Seen]) -> Result<(), Stop>
        ensures { Passes result (parts.in_group self.now seen.now columns.now) }
    {
        for column in columns {
            self.ask_column(seen, column)?;
        }
        Ok(())
    }

    /// The chains of FROM of a query that stands where `outer` is in sight, of which `query` is what its clauses see.
    #[tactic(auto, using(crate::proofs::Rules::passing))]
    #[cycle(names)]
    fn chains(&self, chains: &[Chain], outer: &Sight, query: &Sight) -> Result<(), Stop>
        ensures { Passes result (parts.in_chains self.now outer.now query.now.around [] chains.now) }
    {
        let mut before = Listing::empty(self.alloc);
        for chain in chains {
            self.chain(chain, outer, query, &before)?;
            before.append(self.calls_of(chain)?)?;
        }
        Ok(())
    }

    /// The names by which their query calls the tables of a chain.
    fn calls_of(&self, chain: &Chain) -> Result<Names, NoMemory>
        ensures { IfOk result (λ n. n ≡ sights.calls_of (marks.tables_of_chain (chain_of marks.marked marks.mark_steps chain.now))) }
    {
        let tabs = tables_of_chain(self.alloc, chain)?;
        calls(self.alloc, tabs.as_slice())
    }

    /// A chain that stands after these correlation names of its query.
    #[tactic(auto, using(crate::proofs::Rules::passing))]
    #[cycle(names)]
    fn chain(&self, chain: &Chain, outer: &Sight, query: &Sight, before: &Names) -> Result<(), Stop>
        ensures { Passes result (parts.in_chain self.now outer.now query.now.around before.now chain.now) }
    {
        self.ask_table(before.as_slice(), outer.around(), &chain.first)?;
        let before = self.with_name(before, correlation(&chain.first))?;
        let tabs = self.one_table(&chain.first)?;
        self.joins(chain.joins.as_slice(), outer, query, before, tabs)
    }

    fn with_name(&self, names: &Names, name: &Name) -> Result<Names, NoMemory>
        ensures { IfOk result (λ n. n ≡ names.now ++ name.now ∷ []) }
    {
        let mut names = names.copy(self.alloc)?;
        names.push(name.copy()?)?;
        Ok(names)
    }

    fn one_table(&self, tab: &Tab) -> Result<Listing<Tab>, NoMemory>
        ensures { IfOk result (λ t. t ≡ tab.now ∷ []) }
    {
        let mut tabs = Listing::empty(self.alloc);
        tabs.push(tab.copy()?)?;
        Ok(tabs)
    }

    /// The joins of a chain that stand after these tables of it, and after these correlation names of the query.
    #[tactic(auto, using(crate::proofs::Rules::passing))]
    #[cycle(names)]
    fn joins(
        &self,
        joins: &[Join],
        outer: &Sight,
        query: &Sight,
        before: Names,
        tabs: Listing<Tab>,
    ) -> Result<(), Stop>
        ensures { Passes result (parts.in_joins self.now outer.now query.now.around before tabs joins.now) }
    {
        let mut before = before;
        let mut tabs = tabs;
        for join in joins {
            let tab = table_of(join);
            tabs.push(tab.copy()?)?;
            self.join(join, outer, query, before.as_slice(), tabs.as_slice())?;
            before.push(correlation(tab).copy()?)?;
        }
        Ok(())
    }

    /// A join that stands after these correlation names of its query; its ON condition sees these tables of its chain.
    #[tactic(auto, using(crate::proofs::Rules::passing))]
    #[cycle(names)]
    fn join(
        &self,
        join: &Join,
        outer: &Sight,
        query: &Sight,
        before: &[Name],
        tabs: &[Tab],
    ) -> Result<(), Stop>
        ensures { Passes result (parts.in_join self.now outer.now query.now.around before.now tabs.now join.now) }
    {
        self.ask_table(before, outer.around(), table_of(join))?;
        self.on(join, outer, query, tabs)
    }

    /// The ON condition of a join, which sees these tables of its chain.
    #[tactic(auto, using(crate::proofs::Rules::nodes))]
    #[cycle(names)]
    fn on(&self, join: &Join, outer: &Sight, query: &Sight, tabs: &[Tab]) -> Result<(), Stop>
        ensures { Passes result (parts.in_on self.now join.now (parts.on_sight self.now outer.now query.now.around tabs.now)) }
    {
        match join {
            Join::Inner(_, on) | Join::Left(_, on) => {
                let sight = outer.inside_on(self.alloc, query, tabs)?;
                self.cond(on, &sight)
            }
            Join::Cross(_) => Ok(()),
        }
    }
}
