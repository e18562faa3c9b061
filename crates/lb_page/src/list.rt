// Lists of names, texts and columns, and what may be left out.
#![tactic(auto, using(crate::proofs::Rules::laying))]

ghost use Rattle.std.specs.Prelude.{◌≡◌, ◌∷◌, [], OnOk, map};
ghost use Rattle.lb_tok.specs.Spacing.{laid, mark as mark_piece};
ghost use Rattle.lb_tok.specs.QueryPieces.{alias_pieces, behind, column_pieces, flag as flag_pieces, group_pieces, listed, name_pieces, tab_pieces, text_pieces};
ghost use Rattle.lb_page.specs.Separator.{separator as separator_pieces};

use crate::page::Page;
use lb_base::{Name, NoMemory, Str};
use lb_tok::Kind;
use lb_tree::{Column, Tab};

/// Lays what stands before the part at a place, counted from 0: nothing before the first, the symbol before each other.
pub fn separator(page: &mut Page, kind: Kind, place: usize) -> Result<(), NoMemory>
    ensures { OnOk result (page.new ≡ laid page.old (separator_pieces kind place)) }
{
    if place > 0 { page.mark(kind) } else { Ok(()) }
}

/// Lays the word, where it is meant.
pub fn flag(page: &mut Page, kind: Kind, meant: bool) -> Result<(), NoMemory>
    ensures { OnOk result (page.new ≡ laid page.old (flag_pieces kind meant)) }
{
    if meant { page.mark(kind) } else { Ok(()) }
}

/// Lays AS and the name, where one is given.
pub fn alias(page: &mut Page, name: &Option<Name>) -> Result<(), NoMemory>
    ensures { OnOk result (page.new ≡ laid page.old (alias_pieces name.now)) }
{
    match name {
        None => Ok(()),
        Some(name) => {
            page.mark(Kind::As)?;
            page.name(name)
        }
    }
}

/// Lays a table and its correlation name, where one is given.
pub fn tab(page: &mut Page, tab: &Tab) -> Result<(), NoMemory>
    ensures { OnOk result (page.new ≡ laid page.old (tab_pieces tab.now)) }
{
    page.name(&tab.table)?;
    alias(page, &tab.correlation)
}

/// Lays a column, after its correlation name where one is given.
pub fn column(page: &mut Page, column: &Column) -> Result<(), NoMemory>
    ensures { OnOk result (page.new ≡ laid page.old (column_pieces column.now)) }
{
    match &column.correlation {
        None => page.name(&column.name),
        Some(of) => page.dotted(of, &column.name),
    }
}

/// Lays names with commas between them.
pub fn names(page: &mut Page, names: &[Name]) -> Result<(), NoMemory>
    ensures { OnOk result (page.new ≡ laid page.old (listed (map name_pieces names.now))) }
{
    for (place, name) in names.iter().enumerate() {
        separator(page, Kind::Comma, place)?;
        page.name(name)?;
    }
    Ok(())
}

/// Lays text literals with commas between them.
pub fn texts(page: &mut Page, texts: &[Str]) -> Result<(), NoMemory>
    ensures { OnOk result (page.new ≡ laid page.old (listed (map text_pieces texts.now))) }
{
    for (place, text) in texts.iter().enumerate() {
        separator(page, Kind::Comma, place)?;
        page.literal(text)?;
    }
    Ok(())
}

/// Lays text literals, each after a comma.
pub fn more_texts(page: &mut Page, texts: &[Str]) -> Result<(), NoMemory>
    ensures { OnOk result (page.new ≡ laid page.old (behind Kind.Comma (map text_pieces texts.now))) }
{
    for text in texts {
        page.mark(Kind::Comma)?;
        page.literal(text)?;
    }
    Ok(())
}

fn columns(page: &mut Page, columns: &[Column]) -> Result<(), NoMemory>
    ensures { OnOk result (page.new ≡ laid page.old (listed (map column_pieces columns.now))) }
{
    for (place, part) in columns.iter().enumerate() {
        separator(page, Kind::Comma, place)?;
        column(page, part)?;
    }
    Ok(())
}

/// Lays GROUP BY and its columns, where there are any.
pub fn group(page: &mut Page, group: &[Column]) -> Result<(), NoMemory>
    ensures { OnOk result (page.new ≡ laid page.old (group_pieces group.now)) }
{
    if group.is_empty() {
        return Ok(());
    }
    page.mark(Kind::Group)?;
    page.mark(Kind::By)?;
    columns(page, group)
}
