// Copies of queries, conditions and expressions in which each column is qualified. The recursion goes as deep as the text is nested.
ghost use Rattle.std.specs.Prelude.{◌≡◌, IfOk, [], ◌∷◌, map};
ghost use Rattle.std.specs.Option.{option_map};
ghost use Rattle.lb_names.specs.Qualify as qualify;
ghost use Rattle.lb_scope.specs.Found.{catalogue};
ghost use Rattle.lb_qualify.specs.Forms as forms;

use crate::leaf::Qualifier;
use lb_base::{Listing, NoMemory};
use lb_names::Seen;
use lb_scope::{Sight, table_of};
use lb_tree::{Arm, Chain, Choice, Column, Cond, Expr, Item, Join, Query, Signed, Tab, copy_name};
use sqlite_items::{Boxed, Items};

/// Expressions.
impl Qualifier<'_> {
    /// An expression.
    #[tactic(auto, using(crate::proofs::Rules::expressions))]
    #[cycle(forms)]
    pub fn expr(&self, expr: &Expr, sight: &Sight) -> Result<Expr, NoMemory>
        ensures { IfOk result (λ e. e ≡ forms.in_expr self.now expr.now sight.now.seen) }
    {
        match expr {
            Expr::Atom(atom) => {
                let atom = self.atom(atom, sight.seen())?;
                Ok(Expr::Atom(atom))
            }
            Expr::Sum(list) => {
                let list = self.sum(list.as_slice(), sight)?;
                Ok(Expr::Sum(list))
            }
            Expr::Concat(list) => {
                let list = self.exprs(list.as_slice(), sight)?;
                Ok(Expr::Concat(list))
            }
            Expr::Product(list) => {
                let list = self.exprs(list.as_slice(), sight)?;
                Ok(Expr::Product(list))
            }
            Expr::Case(arms, otherwise) => {
                let arms = self.arms(arms.as_slice(), sight)?;
                let otherwise = self.maybe_expr(otherwise, sight)?;
                Ok(Expr::Case(arms, otherwise))
            }
            Expr::Match(operand, choices, otherwise) => {
                let operand = self.boxed_expr(operand.get(), sight)?;
                let choices = self.choices(choices.as_slice(), sight)?;
                let otherwise = self.maybe_expr(otherwise, sight)?;
                Ok(Expr::Match(operand, choices, otherwise))
            }
            Expr::Aggregate(aggregate, part) => {
                let part = self.boxed_expr(part.get(), sight)?;
                Ok(Expr::Aggregate(*aggregate, part))
            }
            Expr::Substr(text, from, length) => {
                let text = self.boxed_expr(text.get(), sight)?;
                let from = self.boxed_expr(from.get(), sight)?;
                let length = self.maybe_expr(length, sight)?;
                Ok(Expr::Substr(text, from, length))
            }
            Expr::Apply(function, part) => {
                let part = self.boxed_expr(part.get(), sight)?;
                Ok(Expr::Apply(*function, part))
            }
            Expr::Coalesce(list) => {
                let list = self.exprs(list.as_slice(), sight)?;
                Ok(Expr::Coalesce(list))
            }
        }
    }

    #[cycle(forms)]
    fn boxed_expr(&self, expr: &Expr, sight: &Sight) -> Result<Boxed<Expr>, NoMemory>
        ensures { IfOk result (λ e. e ≡ forms.in_expr self.now expr.now sight.now.seen) }
    {
        let expr = self.expr(expr, sight)?;
        Boxed::new(self.alloc, expr)
    }

    #[cycle(forms)]
    fn maybe_expr(
        &self,
        expr: &Option<Boxed<Expr>>,
        sight: &Sight,
    ) -> Result<Option<Boxed<Expr>>, NoMemory>
        ensures { IfOk result (λ e. e ≡ option_map (λ x. forms.in_expr self.now x sight.now.seen) expr.now) }
    {
        match expr {
            None => Ok(None),
            Some(expr) => {
                let expr = self.boxed_expr(expr.get(), sight)?;
                Ok(Some(expr))
            }
        }
    }

    #[cycle(forms)]
    fn exprs(&self, exprs: &[Expr], sight: &Sight) -> Result<Items<Expr>, NoMemory>
        ensures { IfOk result (λ es. es ≡ map (λ e. forms.in_expr self.now e sight.now.seen) exprs.now) }
    {
        let mut made = Items::new(self.alloc);
        for expr in exprs {
            made.push(self.expr(expr, sight)?)?;
        }
        Ok(made)
    }

    #[cycle(forms)]
    fn sum(&self, parts: &[Signed], sight: &Sight) -> Result<Items<Signed>, NoMemory>
        ensures { IfOk result (λ ss. ss ≡ map (λ s. forms.in_signed self.now s sight.now.seen) parts.now) }
    {
        let mut made = Items::new(self.alloc);
        for part in parts {
            made.push(self.signed(part, sight)?)?;
        }
        Ok(made)
    }

    #[tactic(auto, using(crate::proofs::Rules::nodes))]
    #[cycle(forms)]
    fn signed(&self, signed: &Signed, sight: &Sight) -> Result<Signed, NoMemory>
        ensures { IfOk result (λ s. s ≡ forms.in_signed self.now signed.now sight.now.seen) }
    {
        let part = self.expr(&signed.part, sight)?;
        Ok(Signed {
            minus: signed.minus,
            part,
        })
    }

    #[cycle(forms)]
    fn arms(&self, arms: &[Arm], sight: &Sight) -> Result<Items<Arm>, NoMemory>
        ensures { IfOk result (λ as1. as1 ≡ map (λ a. forms.in_arm self.now a sight.now.seen) arms.now) }
    {
        let mut made = Items::new(self.alloc);
        for arm in arms {
            made.push(self.arm(arm, sight)?)?;
        }
        Ok(made)
    }

    #[tactic(auto, using(crate::proofs::Rules::nodes))]
    #[cycle(forms)]
    fn arm(&self, arm: &Arm, sight: &Sight) -> Result<Arm, NoMemory>
        ensures { IfOk result (λ a. a ≡ forms.in_arm self.now arm.now sight.now.seen) }
    {
        let when = self.cond(&arm.when, sight)?;
        let result = self.expr(&arm.result, sight)?;
        Ok(Arm { when, result })
    }

    #[cycle(forms)]
    fn choices(&self, choices: &[Choice], sight: &Sight) -> Result<Items<Choice>, NoMemory>
        ensures { IfOk result (λ cs. cs ≡ map (λ c. forms.in_choice self.now c sight.now.seen) choices.now) }
    {
        let mut made = Items::new(self.alloc);
        for choice in choices {
            made.push(self.choice(choice, sight)?)?;
        }
        Ok(made)
    }

    #[tactic(auto, using(crate::proofs::Rules::nodes))]
    #[cycle(forms)]
    fn choice(&self, choice: &Choice, sight: &Sight) -> Result<Choice, NoMemory>
        ensures { IfOk result (λ c. c ≡ forms.in_choice self.now choice.now sight.now.seen) }
    {
        let when = self.expr(&choice.when, sight)?;
        let result = self.expr(&choice.result, sight)?;
        Ok(Choice { when, result })
    }
}

/// Conditions.
impl Qualifier<'_> {
    /// A condition.
    #[tactic(auto, using(crate::proofs::Rules::conditions))]
    #[cycle(forms)]
    pub fn cond(&self, cond: &Cond, sight: &Sight) -> Result<Cond, NoMemory>
        ensures { IfOk result (λ c. c ≡ forms.in_cond self.now cond.now sight.now.seen) }
    {
        match cond {
            Cond::Or(list) => {
                let list = self.conds(list.as_slice(), sight)?;
                Ok(Cond::Or(list))
            }
            Cond::And(list) => {
                let list = self.conds(list.as_slice(), sight)?;
                Ok(Cond::And(list))
            }
            Cond::Not(part) => {
                let part = self.boxed_cond(part.get(), sight)?;
                Ok(Cond::Not(part))
            }
            Cond::Exists(query) => {
                let query = self.boxed_query(query.get(), sight)?;
                Ok(Cond::Exists(query))
            }
            Cond::Compare(by, left, right) => {
                let left = self.boxed_expr(left.get(), sight)?;
                let right = self.boxed_expr(right.get(), sight)?;
                Ok(Cond::Compare(*by, left, right))
            }
            Cond::CompareQuery(by, left, query) => {
                let left = self.boxed_expr(left.get(), sight)?;
                let query = self.boxed_query(query.get(), sight)?;
                Ok(Cond::CompareQuery(*by, left, query))
            }
            Cond::IsNull(part) => {
                let part = self.boxed_expr(part.get(), sight)?;
                Ok(Cond::IsNull(part))
            }
            Cond::InQuery(part, query) => {
                let part = self.boxed_expr(part.get(), sight)?;
                let query = self.boxed_query(query.get(), sight)?;
                Ok(Cond::InQuery(part, query))
            }
            Cond::InList(part, list) => {
                let part = self.boxed_expr(part.get(), sight)?;
                let list = self.exprs(list.as_slice(), sight)?;
                Ok(Cond::InList(part, list))
            }
            Cond::Between(part, low, high) => {
                let part = self.boxed_expr(part.get(), sight)?;
                let low = self.boxed_expr(low.get(), sight)?;
                let high = self.boxed_expr(high.get(), sight)?;
                Ok(Cond::Between(part, low, high))
            }
        }
    }

    #[cycle(forms)]
    fn boxed_cond(&self, cond: &Cond, sight: &Sight) -> Result<Boxed<Cond>, NoMemory>
        ensures { IfOk result (λ c. c ≡ forms.in_cond self.now cond.now sight.now.seen) }
    {
        let cond = self.cond(cond, sight)?;
        Boxed::new(self.alloc, cond)
    }

    #[cycle(forms)]
    fn maybe_cond(
        &self,
        cond: &Option<Boxed<Cond>>,
        sight: &Sight,
    ) -> Result<Option<Boxed<Cond>>, NoMemory>
        ensures { IfOk result (λ c. c ≡ option_map (λ x. forms.in_cond self.now x sight.now.seen) cond.now) }
    {
        match cond {
            None => Ok(None),
            Some(cond) => {
                let cond = self.boxed_cond(cond.get(), sight)?;
                Ok(Some(cond))
            }
        }
    }

    #[cycle(forms)]
    fn conds(&self, conds: &[Cond], sight: &Sight) -> Result<Items<Cond>, NoMemory>
        ensures { IfOk result (λ cs. cs ≡ map (λ c. forms.in_cond self.now c sight.now.seen) conds.now) }
    {
        let mut made = Items::new(self.alloc);
        for cond in conds {
            made.push(self.cond(cond, sight)?)?;
        }
        Ok(made)
    }
}

/// Queries.
impl Qualifier<'_> {
    #[cycle(forms)]
    fn boxed_query(&self, query: &Query, outer: &Sight) -> Result<Boxed<Query>, NoMemory>
        ensures { IfOk result (λ q. q ≡ forms.in_query self.now query.now outer.now.seen) }
    {
        let query = self.query(query, outer)?;
        Boxed::new(self.alloc, query)
    }

    /// A query that stands where `outer` is in sight.
    #[tactic(auto, using(crate::proofs::Rules::queries))]
    #[cycle(forms)]
    fn query(&self, query: &Query, outer: &Sight) -> Result<Query, NoMemory>
        ensures { IfOk result (λ q. q ≡ forms.in_query self.now query.now outer.now.seen) }
    {
        let inner = outer.inside(self.alloc, query.from.as_slice())?;
        let items = self.items(query.items.as_slice(), &inner)?;
        let from = self.chains(query.from.as_slice(), outer)?;
        let filter = self.maybe_cond(&query.filter, &inner)?;
        let group = self.columns(query.group.as_slice(), inner.seen())?;
        let having = self.maybe_cond(&query.having, &inner)?;
        Ok(Query {
            distinct: query.distinct,
            items,
            from,
            filter,
            group,
            having,
        })
    }

    #[cycle(forms)]
    fn items(&self, items: &[Item], sight: &Sight) -> Result<Items<Item>, NoMemory>
        ensures { IfOk result (λ is. is ≡ map (λ i. forms.in_item self.now i sight.now.seen) items.now) }
    {
        let mut made = Items::new(self.alloc);
        for item in items {
            made.push(self.item(item, sight)?)?;
        }
        Ok(made)
    }

    #[tactic(auto, using(crate::proofs::Rules::nodes))]
    #[cycle(forms)]
    fn item(&self, item: &Item, sight: &Sight) -> Result<Item, NoMemory>
        ensures { IfOk result (λ i. i ≡ forms.in_item self.now item.now sight.now.seen) }
    {
        match item {
            Item::Everything => Ok(Item::Everything),
            Item::AllOf(name) => {
                let name = name.copy()?;
                Ok(Item::AllOf(name))
            }
            Item::Value(value, name) => {
                let value = self.expr(value, sight)?;
                let name = copy_name(name)?;
                Ok(Item::Value(value, name))
            }
        }
    }

    fn columns(&self, columns: &[Column], seen: &[Seen]) -> Result<Items<Column>, NoMemory>
        ensures { IfOk result (λ cs. cs ≡ map (qualify.with_item (catalogue self.now.catalog.now) seen.now) columns.now) }
    {
        let mut made = Items::new(self.alloc);
        for column in columns {
            made.push(self.column(column, seen)?)?;
        }
        Ok(made)
    }

    #[cycle(forms)]
    fn chains(&self, chains: &[Chain], outer: &Sight) -> Result<Items<Chain>, NoMemory>
        ensures { IfOk result (λ cs. cs ≡ map (λ c. forms.in_chain self.now c outer.now.seen) chains.now) }
    {
        let mut made = Items::new(self.alloc);
        for chain in chains {
            made.push(self.chain(chain, outer)?)?;
        }
        Ok(made)
    }

    /// A chain of FROM of a query that stands where `outer` is in sight.
    #[tactic(auto, using(crate::proofs::Rules::nodes))]
    #[cycle(forms)]
    fn chain(&self, chain: &Chain, outer: &Sight) -> Result<Chain, NoMemory>
        ensures { IfOk result (λ c. c ≡ forms.in_chain self.now chain.now outer.now.seen) }
    {
        let first = chain.first.copy()?;
        let tabs = self.one_table(&chain.first)?;
        let joins = self.joins(chain.joins.as_slice(), outer, tabs)?;
        Ok(Chain { first, joins })
    }

    fn one_table(&self, tab: &Tab) -> Result<Listing<Tab>, NoMemory>
        ensures { IfOk result (λ t. t ≡ tab.now ∷ []) }
    {
        let mut tabs = Listing::empty(self.alloc);
        tabs.push(tab.copy()?)?;
        Ok(tabs)
    }

    /// The joins of a chain after these tables of it.
    #[cycle(forms)]
    fn joins(
        &self,
        joins: &[Join],
        outer: &Sight,
        tabs: Listing<Tab>,
    ) -> Result<Items<Join>, NoMemory>
        ensures { IfOk result (λ js. js ≡ forms.in_joins self.now tabs joins.now outer.now.seen) }
    {
        let mut tabs = tabs;
        let mut made = Items::new(self.alloc);
        for join in joins {
            tabs.push(table_of(join).copy()?)?;
            let sight = outer.inside_on(self.alloc, outer, tabs.as_slice())?;
            made.push(self.join(join, &sight)?)?;
        }
        Ok(made)
    }

    /// A join whose ON condition sees this.
    #[tactic(auto, using(crate::proofs::Rules::nodes))]
    #[cycle(forms)]
    fn join(&self, join: &Join, sight: &Sight) -> Result<Join, NoMemory>
        ensures { IfOk result (λ j. j ≡ forms.in_join self.now join.now sight.now.seen) }
    {
        match join {
            Join::Inner(tab, on) => {
                let tab = tab.copy()?;
                let on = self.cond(on, sight)?;
                Ok(Join::Inner(tab, on))
            }
            Join::Left(tab, on) => {
                let tab = tab.copy()?;
                let on = self.cond(on, sight)?;
                Ok(Join::Left(tab, on))
            }
            Join::Cross(tab) => {
                let tab = tab.copy()?;
                Ok(Join::Cross(tab))
            }
        }
    }
}
