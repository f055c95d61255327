// The table of all letters that are open, and what is under way of them.
ghost use Rattle.std.specs.Prelude.{◌≡◌, [], ◌∷◌, ◌++◌, min, length, string_bytes, Some, IfOk, OnOk};
ghost use Rattle.text.specs.Growth.{Prints};
ghost use Rattle.rehearsal.specs.Tables.{right, coins_column, work_column, asked_column, helper_row, node_column, kind_column, bytes_column, mail_row, helper_rows, row_of, parcel_rows, headed, letter_table, table_of, tables, or_none, Sorted, Shown};

use boss_coins::boss::Boss;
use coins::ids::{LetterId, NodeId};
use coins::mail::{Kind, Mail};
use coins::parcel::Parcel;
use helper_coins::holding::Holding;
use stage::stage::Stage;
use std::alloc::{AllocError, Global};
use std::fmt::Write;
use text::hex::print_hex;

// Puts the table of all open letters behind what is there, by their numbers.
pub(crate) fn push_stage(heap: Global, out: &mut String, stage: &Stage) -> Result<(), AllocError>
    ensures { OnOk result (Shown stage.now (string_bytes out.old) (string_bytes out.new)) }
{
    let numbers = open_letters(heap, stage.boss())?;
    push_letters(out, stage, &numbers)
}

// The numbers of the letters that are open, in their order; behind zeros for the places that are free.
fn open_letters(heap: Global, boss: &Boss) -> Result<Vec<u32>, AllocError>
    ensures { IfOk result (λ v. Sorted boss.now.letters v.items) }
{
    let mut numbers = Vec::from_slice(heap, boss.letters())?;
    numbers.sort_unstable();
    Ok(numbers)
}

// The letters, or a line that says that there are none.
fn push_letters(out: &mut String, stage: &Stage, numbers: &[u32]) -> Result<(), AllocError>
    ensures { Prints result out.old out.new (or_none (tables stage.now numbers.now)) }
{
    if numbers.iter().any(|number| *number > 0) {
        push_each(out, stage, numbers)
    } else {
        writeln!(out, "no letter is open")
    }
}

#[tactic(auto, using(std::proofs::lemmas::List::take_more, std::proofs::lemmas::List::flat_map_more), unfolding(crate::specs::Tables::tables))]
fn push_each(out: &mut String, stage: &Stage, numbers: &[u32]) -> Result<(), AllocError>
    ensures { Prints result out.old out.new (tables stage.now numbers.now) }
{
    for number in numbers {
        push_open(out, stage, *number)?;
    }
    Ok(())
}

// A letter, or nothing where the number is 0.
#[tactic(auto, unfolding(crate::specs::Tables::table_of))]
fn push_open(out: &mut String, stage: &Stage, number: u32) -> Result<(), AllocError>
    ensures { Prints result out.old out.new (table_of stage.now number) }
{
    if number > 0 {
        push_letter(out, stage, LetterId { number })?;
    }
    Ok(())
}

fn push_letter(out: &mut String, stage: &Stage, letter: LetterId) -> Result<(), AllocError>
    ensures { Prints result out.old out.new (letter_table stage.now letter) }
{
    let boss = stage.boss();
    let given = boss.given(letter);
    let back = boss.back(letter);
    writeln!(out, "letter {}: given {given}, back {back}", letter.number)?;
    writeln!(out, "  helper       coins  at work  asked")?;
    push_helpers(out, stage, letter)?;
    push_parcels(out, stage.parcels(), letter)
}

// By their numbers, which are their places; what each has is asked for by its number.
#[tactic(auto, unfolding(crate::specs::Tables::helper_rows))]
fn push_helpers(out: &mut String, stage: &Stage, letter: LetterId) -> Result<(), AllocError>
    ensures { Prints result out.old out.new (helper_rows stage.now.helpers letter (min (length stage.now.helpers) 256)) }
{
    for i in 0..stage.helpers().min(256) {
        let helper = NodeId { number: i as u16 };
        push_helper(out, helper, stage.holding(helper, letter))?;
    }
    Ok(())
}

fn push_helper(out: &mut String, helper: NodeId, holding: Holding) -> Result<(), AllocError>
    ensures { Prints result out.old out.new (helper_row helper holding) }
{
    push_counted(out, helper.number, holding.coins)?;
    out.push_str(state_columns(holding.working, holding.asked))?;
    Ok(())
}

// A helper's number, and coins; by one `write!`, since each costs anew.
#[tactic(auto, using(text::proofs::Written::right_aligned), unfolding(crate::specs::Tables::coins_column))]
fn push_counted(out: &mut String, number: u16, coins: u64) -> Result<(), AllocError>
    ensures { Prints result out.old out.new (right 8 number ++ coins_column coins) }
{
    write!(out, "{number:>8}  {coins:>10}")
}

// Whether a helper is at work, in nine columns, and whether it has asked for more, each with two spaces before it; and
// the row's end. One text for both: each piece of a format costs a call.
fn state_columns(working: bool, asked: bool) -> &'static str
    ensures { result.now ≡ work_column working ++ (asked_column asked ++ 10 ∷ []) }
{
    match (working, asked) {
        (true, true) => "  yes      yes\n",
        (true, false) => "  yes      no\n",
        (false, true) => "  no       yes\n",
        (false, false) => "  no       no\n",
    }
}

// What is under way of a letter, the oldest first.
fn push_parcels(out: &mut String, parcels: &[Parcel], letter: LetterId) -> Result<(), AllocError>
    ensures { Prints result out.old out.new (headed (parcel_rows letter parcels.now)) }
{
    if parcels.iter().any(|parcel| parcel.mail.letter == letter) {
        writeln!(out, "  from    to  kind       coins  bytes")?;
        push_rows(out, parcels, letter)?;
    }
    Ok(())
}

#[tactic(auto, using(std::proofs::lemmas::List::take_more, std::proofs::lemmas::List::flat_map_more), unfolding(crate::specs::Tables::parcel_rows))]
fn push_rows(out: &mut String, parcels: &[Parcel], letter: LetterId) -> Result<(), AllocError>
    ensures { Prints result out.old out.new (parcel_rows letter parcels.now) }
{
    for parcel in parcels {
        push_row(out, parcel, letter)?;
    }
    Ok(())
}

// A message, if it is of the letter.
#[tactic(auto, unfolding(crate::specs::Tables::row_of))]
fn push_row(out: &mut String, parcel: &Parcel, letter: LetterId) -> Result<(), AllocError>
    ensures { Prints result out.old out.new (row_of letter parcel.now) }
{
    if parcel.mail.letter == letter {
        push_mail(out, parcel.mail, parcel.work.as_slice())?;
    }
    Ok(())
}

// A message, and the bytes of its work, column by column: each piece of a format costs a call.
fn push_mail(out: &mut String, mail: Mail, bytes: &[u8]) -> Result<(), AllocError>
    ensures { Prints result out.old out.new (mail_row mail bytes.now) }
{
    push_node(out, mail.sender)?;
    push_node(out, mail.receiver)?;
    out.push_str(kind_column(mail.kind))?;
    push_coins(out, mail.kind.coins())?;
    push_bytes(out, bytes)?;
    out.push_str("\n")?;
    Ok(())
}

// A helper's number, or `boss`, on the right of six columns.
#[tactic(auto, using(text::proofs::Written::right_aligned), unfolding(crate::specs::Tables::node_column))]
fn push_node(out: &mut String, node: NodeId) -> Result<(), AllocError>
    ensures { Prints result out.old out.new (node_column node) }
{
    let number = node.number;
    if node.is_boss() {
        out.push_str("  boss")
    } else {
        write!(out, "{number:>6}")
    }
}

// Two spaces, and coins on the right of ten columns.
#[tactic(auto, using(text::proofs::Written::right_aligned), unfolding(crate::specs::Tables::coins_column))]
fn push_coins(out: &mut String, coins: u64) -> Result<(), AllocError>
    ensures { Prints result out.old out.new (coins_column coins) }
{
    write!(out, "  {coins:>10}")
}

// Two spaces and bytes in hexadecimal, where there are some.
#[tactic(auto, unfolding(crate::specs::Tables::bytes_column))]
fn push_bytes(out: &mut String, bytes: &[u8]) -> Result<(), AllocError>
    ensures { Prints result out.old out.new (bytes_column bytes.now) }
{
    if bytes.is_empty() {
        return Ok(());
    }
    out.push_str("  ")?;
    print_hex(out, bytes)
}

// The name of a kind, with two spaces before it, in six columns.
fn kind_column(kind: Kind) -> &'static str
    ensures { result.now ≡ kind_column kind }
{
    match kind {
        Kind::Work(_) => "  work",
        Kind::More(_) => "  more",
        Kind::Back(_) => "  back",
        Kind::NoMore => "  none",
        Kind::Ask => "  ask ",
    }
}
