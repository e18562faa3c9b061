// Copies of queries, conditions and expressions.
ghost use Rattle.std.specs.Prelude.{◌≡◌, IfOk};

use crate::{
    Arm, Atom, Chain, Choice, Column, Cond, Expr, Item, Join, Query, Select, Signed, SortKey, Tab,
};
use lb_base::{Name, NoMemory, Str};
use sqlite_items::{Boxed, Items};
use std::alloc::Global;

/// A copy of a name that may be left out.
pub fn copy_name(name: &Option<Name>) -> Result<Option<Name>, NoMemory>
    ensures { IfOk result (λ c. c ≡ name.now) }
{
    match name {
        None => Ok(None),
        Some(name) => {
            let name = name.copy()?;
            Ok(Some(name))
        }
    }
}

/// A copy of names.
pub fn copy_names(alloc: Global, names: &[Name]) -> Result<Items<Name>, NoMemory>
    ensures { IfOk result (λ c. c ≡ names.now) }
{
    let mut copied = Items::new(alloc);
    for name in names {
        copied.push(name.copy()?)?;
    }
    Ok(copied)
}

/// A copy of texts.
pub fn copy_texts(alloc: Global, texts: &[Str]) -> Result<Items<Str>, NoMemory>
    ensures { IfOk result (λ c. c ≡ texts.now) }
{
    let mut copied = Items::new(alloc);
    for text in texts {
        copied.push(text.copy()?)?;
    }
    Ok(copied)
}

impl Column {
    /// An equal column in memory of its own.
    pub fn copy(&self) -> Result<Column, NoMemory>
        ensures { IfOk result (λ c. c ≡ self.now) }
    {
        let correlation = copy_name(&self.correlation)?;
        let name = self.name.copy()?;
        Ok(Column { correlation, name })
    }
}

fn copy_columns(alloc: Global, columns: &[Column]) -> Result<Items<Column>, NoMemory>
    ensures { IfOk result (λ c. c ≡ columns.now) }
{
    let mut copied = Items::new(alloc);
    for column in columns {
        copied.push(column.copy()?)?;
    }
    Ok(copied)
}

impl Tab {
    /// An equal table of FROM in memory of its own.
    pub fn copy(&self) -> Result<Tab, NoMemory>
        ensures { IfOk result (λ c. c ≡ self.now) }
    {
        let table = self.table.copy()?;
        let correlation = copy_name(&self.correlation)?;
        Ok(Tab { table, correlation })
    }
}

impl Atom {
    /// An equal expression in memory of its own.
    pub fn copy(&self, alloc: Global) -> Result<Atom, NoMemory>
        ensures { IfOk result (λ c. c ≡ self.now) }
    {
        match self {
            Atom::Null => Ok(Atom::Null),
            Atom::Int(n) => Ok(Atom::Int(*n)),
            Atom::Text(text) => {
                let text = text.copy()?;
                Ok(Atom::Text(text))
            }
            Atom::Date(day) => Ok(Atom::Date(*day)),
            Atom::CurrentDate => Ok(Atom::CurrentDate),
            Atom::SessionUser => Ok(Atom::SessionUser),
            Atom::Column(column) => {
                let column = column.copy()?;
                Ok(Atom::Column(column))
            }
            Atom::CountRows => Ok(Atom::CountRows),
            Atom::VerifyRole(roles) => {
                let roles = copy_texts(alloc, roles.as_slice())?;
                Ok(Atom::VerifyRole(roles))
            }
            Atom::VerifyGroup(groups) => {
                let groups = copy_texts(alloc, groups.as_slice())?;
                Ok(Atom::VerifyGroup(groups))
            }
            Atom::SecLabel(policy, text) => {
                let policy = policy.copy()?;
                let text = text.copy()?;
                Ok(Atom::SecLabel(policy, text))
            }
            Atom::SecLabelByName(policy, label) => {
                let policy = policy.copy()?;
                let label = label.copy()?;
                Ok(Atom::SecLabelByName(policy, label))
            }
            Atom::SecLabelToChar(policy, column) => {
                let policy = policy.copy()?;
                let column = column.copy()?;
                Ok(Atom::SecLabelToChar(policy, column))
            }
        }
    }
}

impl Expr {
    /// An equal expression in memory of its own.
    #[cycle(copies)]
    pub fn copy(&self, alloc: Global) -> Result<Expr, NoMemory>
        ensures { IfOk result (λ c. c ≡ self.now) }
    {
        match self {
            Expr::Atom(atom) => {
                let atom = atom.copy(alloc)?;
                Ok(Expr::Atom(atom))
            }
            Expr::Sum(parts) => {
                let parts = copy_signed(alloc, parts.as_slice())?;
                Ok(Expr::Sum(parts))
            }
            Expr::Concat(parts) => {
                let parts = copy_exprs(alloc, parts.as_slice())?;
                Ok(Expr::Concat(parts))
            }
            Expr::Product(parts) => {
                let parts = copy_exprs(alloc, parts.as_slice())?;
                Ok(Expr::Product(parts))
            }
            Expr::Case(arms, otherwise) => {
                let arms = copy_arms(alloc, arms.as_slice())?;
                let otherwise = copy_expr_option(alloc, otherwise)?;
                Ok(Expr::Case(arms, otherwise))
            }
            Expr::Match(operand, choices, otherwise) => {
                let operand = copy_expr(alloc, operand.get())?;
                let choices = copy_choices(alloc, choices.as_slice())?;
                let otherwise = copy_expr_option(alloc, otherwise)?;
                Ok(Expr::Match(operand, choices, otherwise))
            }
            Expr::Aggregate(aggregate, of) => {
                let of = copy_expr(alloc, of.get())?;
                Ok(Expr::Aggregate(*aggregate, of))
            }
            Expr::Substr(text, start, length) => {
                let text = copy_expr(alloc, text.get())?;
                let start = copy_expr(alloc, start.get())?;
                let length = copy_expr_option(alloc, length)?;
                Ok(Expr::Substr(text, start, length))
            }
            Expr::Apply(function, to) => {
                let to = copy_expr(alloc, to.get())?;
                Ok(Expr::Apply(*function, to))
            }
            Expr::Coalesce(parts) => {
                let parts = copy_exprs(alloc, parts.as_slice())?;
                Ok(Expr::Coalesce(parts))
            }
        }
    }
}

#[cycle(copies)]
fn copy_expr(alloc: Global, expr: &Expr) -> Result<Boxed<Expr>, NoMemory>
    ensures { IfOk result (λ c. c ≡ expr.now) }
{
    let expr = expr.copy(alloc)?;
    Boxed::new(alloc, expr)
}

#[cycle(copies)]
fn copy_expr_option(
    alloc: Global,
    expr: &Option<Boxed<Expr>>,
) -> Result<Option<Boxed<Expr>>, NoMemory>
    ensures { IfOk result (λ c. c ≡ expr.now) }
{
    match expr {
        None => Ok(None),
        Some(expr) => {
            let expr = copy_expr(alloc, expr.get())?;
            Ok(Some(expr))
        }
    }
}

#[cycle(copies)]
fn copy_exprs(alloc: Global, exprs: &[Expr]) -> Result<Items<Expr>, NoMemory>
    ensures { IfOk result (λ c. c ≡ exprs.now) }
{
    let mut copied = Items::new(alloc);
    for expr in exprs {
        copied.push(expr.copy(alloc)?)?;
    }
    Ok(copied)
}

impl Signed {
    /// An equal part of a sum in memory of its own.
    #[cycle(copies)]
    pub fn copy(&self, alloc: Global) -> Result<Signed, NoMemory>
        ensures { IfOk result (λ c. c ≡ self.now) }
    {
        let part = self.part.copy(alloc)?;
        Ok(Signed {
            minus: self.minus,
            part,
        })
    }
}

#[cycle(copies)]
fn copy_signed(alloc: Global, parts: &[Signed]) -> Result<Items<Signed>, NoMemory>
    ensures { IfOk result (λ c. c ≡ parts.now) }
{
    let mut copied = Items::new(alloc);
    for part in parts {
        copied.push(part.copy(alloc)?)?;
    }
    Ok(copied)
}

impl Arm {
    /// An equal WHEN in memory of its own.
    #[cycle(copies)]
    pub fn copy(&self, alloc: Global) -> Result<Arm, NoMemory>
        ensures { IfOk result (λ c. c ≡ self.now) }
    {
        let when = self.when.copy(alloc)?;
        let result = self.result.copy(alloc)?;
        Ok(Arm { when, result })
    }
}

#[cycle(copies)]
fn copy_arms(alloc: Global, arms: &[Arm]) -> Result<Items<Arm>, NoMemory>
    ensures { IfOk result (λ c. c ≡ arms.now) }
{
    let mut copied = Items::new(alloc);
    for arm in arms {
        copied.push(arm.copy(alloc)?)?;
    }
    Ok(copied)
}

impl Choice {
    /// An equal WHEN in memory of its own.
    #[cycle(copies)]
    pub fn copy(&self, alloc: Global) -> Result<Choice, NoMemory>
        ensures { IfOk result (λ c. c ≡ self.now) }
    {
        let when = self.when.copy(alloc)?;
        let result = self.result.copy(alloc)?;
        Ok(Choice { when, result })
    }
}

#[cycle(copies)]
fn copy_choices(alloc: Global, choices: &[Choice]) -> Result<Items<Choice>, NoMemory>
    ensures { IfOk result (λ c. c ≡ choices.now) }
{
    let mut copied = Items::new(alloc);
    for choice in choices {
        copied.push(choice.copy(alloc)?)?;
    }
    Ok(copied)
}

impl Cond {
    /// An equal condition in memory of its own.
    #[cycle(copies)]
    pub fn copy(&self, alloc: Global) -> Result<Cond, NoMemory>
        ensures { IfOk result (λ c. c ≡ self.now) }
    {
        match self {
            Cond::Or(parts) => {
                let parts = copy_conds(alloc, parts.as_slice())?;
                Ok(Cond::Or(parts))
            }
            Cond::And(parts) => {
                let parts = copy_conds(alloc, parts.as_slice())?;
                Ok(Cond::And(parts))
            }
            Cond::Not(part) => {
                let part = copy_cond(alloc, part.get())?;
                Ok(Cond::Not(part))
            }
            Cond::Exists(query) => {
                let query = copy_query(alloc, query.get())?;
                Ok(Cond::Exists(query))
            }
            Cond::Compare(by, left, right) => {
                let left = copy_expr(alloc, left.get())?;
                let right = copy_expr(alloc, right.get())?;
                Ok(Cond::Compare(*by, left, right))
            }
            Cond::CompareQuery(by, left, query) => {
                let left = copy_expr(alloc, left.get())?;
                let query = copy_query(alloc, query.get())?;
                Ok(Cond::CompareQuery(*by, left, query))
            }
            Cond::IsNull(part) => {
                let part = copy_expr(alloc, part.get())?;
                Ok(Cond::IsNull(part))
            }
            Cond::InQuery(part, query) => {
                let part = copy_expr(alloc, part.get())?;
                let query = copy_query(alloc, query.get())?;
                Ok(Cond::InQuery(part, query))
            }
            Cond::InList(part, list) => {
                let part = copy_expr(alloc, part.get())?;
                let list = copy_exprs(alloc, list.as_slice())?;
                Ok(Cond::InList(part, list))
            }
            Cond::Between(part, low, high) => {
                let part = copy_expr(alloc, part.get())?;
                let low = copy_expr(alloc, low.get())?;
                let high = copy_expr(alloc, high.get())?;
                Ok(Cond::Between(part, low, high))
            }
        }
    }
}

#[cycle(copies)]
fn copy_cond(alloc: Global, cond: &Cond) -> Result<Boxed<Cond>, NoMemory>
    ensures { IfOk result (λ c. c ≡ cond.now) }
{
    let cond = cond.copy(alloc)?;
    Boxed::new(alloc, cond)
}

#[cycle(copies)]
fn copy_cond_option(
    alloc: Global,
    cond: &Option<Boxed<Cond>>,
) -> Result<Option<Boxed<Cond>>, NoMemory>
    ensures { IfOk result (λ c. c ≡ cond.now) }
{
    match cond {
        None => Ok(None),
        Some(cond) => {
            let cond = copy_cond(alloc, cond.get())?;
            Ok(Some(cond))
        }
    }
}

#[cycle(copies)]
fn copy_conds(alloc: Global, conds: &[Cond]) -> Result<Items<Cond>, NoMemory>
    ensures { IfOk result (λ c. c ≡ conds.now) }
{
    let mut copied = Items::new(alloc);
    for cond in conds {
        copied.push(cond.copy(alloc)?)?;
    }
    Ok(copied)
}

impl Item {
    /// An equal item in memory of its own.
    #[cycle(copies)]
    pub fn copy(&self, alloc: Global) -> Result<Item, NoMemory>
        ensures { IfOk result (λ c. c ≡ self.now) }
    {
        match self {
            Item::Everything => Ok(Item::Everything),
            Item::AllOf(name) => {
                let name = name.copy()?;
                Ok(Item::AllOf(name))
            }
            Item::Value(value, name) => {
                let value = value.copy(alloc)?;
                let name = copy_name(name)?;
                Ok(Item::Value(value, name))
            }
        }
    }
}

#[cycle(copies)]
fn copy_items(alloc: Global, items: &[Item]) -> Result<Items<Item>, NoMemory>
    ensures { IfOk result (λ c. c ≡ items.now) }
{
    let mut copied = Items::new(alloc);
    for item in items {
        copied.push(item.copy(alloc)?)?;
    }
    Ok(copied)
}

impl Join {
    /// An equal join in memory of its own.
    #[cycle(copies)]
    pub fn copy(&self, alloc: Global) -> Result<Join, NoMemory>
        ensures { IfOk result (λ c. c ≡ self.now) }
    {
        match self {
            Join::Inner(tab, on) => {
                let tab = tab.copy()?;
                let on = on.copy(alloc)?;
                Ok(Join::Inner(tab, on))
            }
            Join::Left(tab, on) => {
                let tab = tab.copy()?;
                let on = on.copy(alloc)?;
                Ok(Join::Left(tab, on))
            }
            Join::Cross(tab) => {
                let tab = tab.copy()?;
                Ok(Join::Cross(tab))
            }
        }
    }
}

#[cycle(copies)]
fn copy_joins(alloc: Global, joins: &[Join]) -> Result<Items<Join>, NoMemory>
    ensures { IfOk result (λ c. c ≡ joins.now) }
{
    let mut copied = Items::new(alloc);
    for join in joins {
        copied.push(join.copy(alloc)?)?;
    }
    Ok(copied)
}

impl Chain {
    /// An equal chain in memory of its own.
    #[cycle(copies)]
    pub fn copy(&self, alloc: Global) -> Result<Chain, NoMemory>
        ensures { IfOk result (λ c. c ≡ self.now) }
    {
        let first = self.first.copy()?;
        let joins = copy_joins(alloc, self.joins.as_slice())?;
        Ok(Chain { first, joins })
    }
}

#[cycle(copies)]
fn copy_chains(alloc: Global, chains: &[Chain]) -> Result<Items<Chain>, NoMemory>
    ensures { IfOk result (λ c. c ≡ chains.now) }
{
    let mut copied = Items::new(alloc);
    for chain in chains {
        copied.push(chain.copy(alloc)?)?;
    }
    Ok(copied)
}

impl Query {
    /// An equal query in memory of its own.
    #[cycle(copies)]
    pub fn copy(&self, alloc: Global) -> Result<Query, NoMemory>
        ensures { IfOk result (λ c. c ≡ self.now) }
    {
        let items = copy_items(alloc, self.items.as_slice())?;
        let from = copy_chains(alloc, self.from.as_slice())?;
        let filter = copy_cond_option(alloc, &self.filter)?;
        let group = copy_columns(alloc, self.group.as_slice())?;
        let having = copy_cond_option(alloc, &self.having)?;
        Ok(Query {
            distinct: self.distinct,
            items,
            from,
            filter,
            group,
            having,
        })
    }
}

#[cycle(copies)]
fn copy_query(alloc: Global, query: &Query) -> Result<Boxed<Query>, NoMemory>
    ensures { IfOk result (λ c. c ≡ query.now) }
{
    let query = query.copy(alloc)?;
    Boxed::new(alloc, query)
}

impl SortKey {
    /// An equal sort key in memory of its own.
    pub fn copy(&self, alloc: Global) -> Result<SortKey, NoMemory>
        ensures { IfOk result (λ c. c ≡ self.now) }
    {
        let by = self.by.copy(alloc)?;
        Ok(SortKey {
            by,
            direction: self.direction,
        })
    }
}

fn copy_keys(alloc: Global, keys: &[SortKey]) -> Result<Items<SortKey>, NoMemory>
    ensures { IfOk result (λ c. c ≡ keys.now) }
{
    let mut copied = Items::new(alloc);
    for key in keys {
        copied.push(key.copy(alloc)?)?;
    }
    Ok(copied)
}

impl Select {
    /// An equal query in memory of its own.
    pub fn copy(&self, alloc: Global) -> Result<Select, NoMemory>
        ensures { IfOk result (λ c. c ≡ self.now) }
    {
        let query = self.query.copy(alloc)?;
        let order = copy_keys(alloc, self.order.as_slice())?;
        Ok(Select {
            query,
            order,
            fetch: self.fetch,
        })
    }
}
