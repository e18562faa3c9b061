// The search through expressions, conditions and queries. The recursion goes as deep as the text is nested.
ghost use Rattle.std.specs.Prelude.{◌≡◌};
ghost use Rattle.std.specs.List.{list_any};
ghost use Rattle.lb_names.specs.Mentions as mentions;
ghost use Rattle.lb_mentions.specs.Parts as parts;
ghost use Rattle.lb_mentions.specs.Seeking.{is_sought};

use crate::sought::Sought;
use lb_tree::{Arm, Chain, Choice, Cond, Expr, Item, Join, Query, Signed};
use sqlite_items::Boxed;

impl Sought<'_> {
    /// Whether the condition of a permission mentions it.
    #[tactic(auto, using(crate::proofs::Nodes::whole_cond))]
    pub fn in_condition(&self, condition: &Cond) -> bool
        ensures { result ≡ list_any (is_sought self.now) (mentions.in_cond condition.now) }
    {
        self.cond(condition)
    }

    /// Whether the CASE of a mask mentions it.
    #[tactic(auto, using(crate::proofs::Nodes::whole_expr))]
    pub fn in_value(&self, value: &Expr) -> bool
        ensures { result ≡ list_any (is_sought self.now) (mentions.in_expr value.now) }
    {
        self.expr(value)
    }
}

/// Expressions.
impl Sought<'_> {
    #[tactic(auto, using(crate::proofs::Rules::expressions))]
    #[cycle(mentions)]
    fn expr(&self, expr: &Expr) -> bool
        ensures { result ≡ parts.in_expr self.now expr.now }
    {
        match expr {
            Expr::Atom(atom) => self.is_called(atom),
            Expr::Sum(list) => self.sum(list.as_slice()),
            Expr::Concat(list) => self.exprs(list.as_slice()),
            Expr::Product(list) => self.exprs(list.as_slice()),
            Expr::Case(arms, otherwise) => {
                self.arms(arms.as_slice()) || self.maybe_expr(otherwise)
            }
            Expr::Match(operand, choices, otherwise) => {
                if self.expr(operand.get()) {
                    return true;
                }
                self.choices(choices.as_slice()) || self.maybe_expr(otherwise)
            }
            Expr::Aggregate(_, part) => self.expr(part.get()),
            Expr::Substr(text, from, length) => {
                if self.expr(text.get()) {
                    return true;
                }
                self.expr(from.get()) || self.maybe_expr(length)
            }
            Expr::Apply(_, part) => self.expr(part.get()),
            Expr::Coalesce(list) => self.exprs(list.as_slice()),
        }
    }

    #[cycle(mentions)]
    fn exprs(&self, list: &[Expr]) -> bool
        ensures { result ≡ list_any (parts.in_expr self.now) list.now }
    {
        for part in list {
            if self.expr(part) {
                return true;
            }
        }
        false
    }

    #[cycle(mentions)]
    fn maybe_expr(&self, part: &Option<Boxed<Expr>>) -> bool
        ensures { result ≡ parts.of_maybe (parts.in_expr self.now) part.now }
    {
        match part {
            None => false,
            Some(part) => self.expr(part.get()),
        }
    }

    #[cycle(mentions)]
    fn sum(&self, list: &[Signed]) -> bool
        ensures { result ≡ list_any (parts.in_signed self.now) list.now }
    {
        for part in list {
            if self.signed(part) {
                return true;
            }
        }
        false
    }

    #[tactic(auto, using(crate::proofs::Rules::nodes))]
    #[cycle(mentions)]
    fn signed(&self, part: &Signed) -> bool
        ensures { result ≡ parts.in_signed self.now part.now }
    {
        self.expr(&part.part)
    }

    #[cycle(mentions)]
    fn arms(&self, arms: &[Arm]) -> bool
        ensures { result ≡ list_any (parts.in_arm self.now) arms.now }
    {
        for arm in arms {
            if self.arm(arm) {
                return true;
            }
        }
        false
    }

    #[tactic(auto, using(crate::proofs::Rules::nodes))]
    #[cycle(mentions)]
    fn arm(&self, arm: &Arm) -> bool
        ensures { result ≡ parts.in_arm self.now arm.now }
    {
        self.cond(&arm.when) || self.expr(&arm.result)
    }

    #[cycle(mentions)]
    fn choices(&self, choices: &[Choice]) -> bool
        ensures { result ≡ list_any (parts.in_choice self.now) choices.now }
    {
        for choice in choices {
            if self.choice(choice) {
                return true;
            }
        }
        false
    }

    #[tactic(auto, using(crate::proofs::Rules::nodes))]
    #[cycle(mentions)]
    fn choice(&self, choice: &Choice) -> bool
        ensures { result ≡ parts.in_choice self.now choice.now }
    {
        self.expr(&choice.when) || self.expr(&choice.result)
    }
}

/// Conditions.
impl Sought<'_> {
    #[tactic(auto, using(crate::proofs::Rules::conditions))]
    #[cycle(mentions)]
    fn cond(&self, cond: &Cond) -> bool
        ensures { result ≡ parts.in_cond self.now cond.now }
    {
        match cond {
            Cond::Or(list) => self.conds(list.as_slice()),
            Cond::And(list) => self.conds(list.as_slice()),
            Cond::Not(part) => self.cond(part.get()),
            Cond::Exists(query) => self.query(query.get()),
            Cond::Compare(_, left, right) => self.expr(left.get()) || self.expr(right.get()),
            Cond::CompareQuery(_, left, query) => self.expr(left.get()) || self.query(query.get()),
            Cond::IsNull(part) => self.expr(part.get()),
            Cond::InQuery(part, query) => self.expr(part.get()) || self.query(query.get()),
            Cond::InList(part, list) => self.expr(part.get()) || self.exprs(list.as_slice()),
            Cond::Between(part, low, high) => {
                self.expr(part.get()) || self.expr(low.get()) || self.expr(high.get())
            }
        }
    }

    #[cycle(mentions)]
    fn conds(&self, list: &[Cond]) -> bool
        ensures { result ≡ list_any (parts.in_cond self.now) list.now }
    {
        for part in list {
            if self.cond(part) {
                return true;
            }
        }
        false
    }

    #[cycle(mentions)]
    fn maybe_cond(&self, part: &Option<Boxed<Cond>>) -> bool
        ensures { result ≡ parts.of_maybe (parts.in_cond self.now) part.now }
    {
        match part {
            None => false,
            Some(part) => self.cond(part.get()),
        }
    }
}

/// Queries.
impl Sought<'_> {
    #[tactic(auto, using(crate::proofs::Rules::queries))]
    #[cycle(mentions)]
    fn query(&self, query: &Query) -> bool
        ensures { result ≡ parts.in_query self.now query.now }
    {
        if self.items(query.items.as_slice()) {
            return true;
        }
        if self.chains(query.from.as_slice()) {
            return true;
        }
        self.maybe_cond(&query.filter) || self.maybe_cond(&query.having)
    }

    #[cycle(mentions)]
    fn items(&self, items: &[Item]) -> bool
        ensures { result ≡ list_any (parts.in_item self.now) items.now }
    {
        for item in items {
            if self.item(item) {
                return true;
            }
        }
        false
    }

    #[tactic(auto, using(crate::proofs::Rules::nodes))]
    #[cycle(mentions)]
    fn item(&self, item: &Item) -> bool
        ensures { result ≡ parts.in_item self.now item.now }
    {
        match item {
            Item::Everything | Item::AllOf(_) => false,
            Item::Value(value, _) => self.expr(value),
        }
    }

    #[cycle(mentions)]
    fn chains(&self, chains: &[Chain]) -> bool
        ensures { result ≡ list_any (parts.in_chain self.now) chains.now }
    {
        for chain in chains {
            if self.chain(chain) {
                return true;
            }
        }
        false
    }

    #[tactic(auto, using(crate::proofs::Rules::nodes))]
    #[cycle(mentions)]
    fn chain(&self, chain: &Chain) -> bool
        ensures { result ≡ parts.in_chain self.now chain.now }
    {
        self.is_table(&chain.first.table) || self.joins(chain.joins.as_slice())
    }

    #[cycle(mentions)]
    fn joins(&self, joins: &[Join]) -> bool
        ensures { result ≡ list_any (parts.in_join self.now) joins.now }
    {
        for join in joins {
            if self.join(join) {
                return true;
            }
        }
        false
    }

    #[tactic(auto, using(crate::proofs::Rules::nodes))]
    #[cycle(mentions)]
    fn join(&self, join: &Join) -> bool
        ensures { result ≡ parts.in_join self.now join.now }
    {
        match join {
            Join::Inner(tab, on) => self.is_table(&tab.table) || self.cond(on),
            Join::Left(tab, on) => self.is_table(&tab.table) || self.cond(on),
            Join::Cross(tab) => self.is_table(&tab.table),
        }
    }
}
