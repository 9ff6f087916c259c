// The functions for a C host: each call's answer as a number, and a line of text. No function here has a `requires`.
#![tactic(auto)]

mod lines; // lines of text
mod numbers; // the number of an answer

ghost use Rattle.std.specs.Prelude.{◌≡◌};
ghost use Rattle.calls.specs.Answers.{answer_number, number_after};
ghost use Rattle.calls.specs.Calls.{add_result, ask_answer, change_result, intake_answer, rank_answer, remove_result};
ghost use Rattle.calls.specs.Calls.{total_answer, unrank_result};
ghost use Rattle.change.specs.Changing.{change_of};
ghost use Rattle.trees.specs.Listing.{read_tree};

use answering::{ask, change, rank, take_in, total, unrank};
use numbers::{answer_number, number_after};

// A change, with its answer as a number. Both functions for C call it, so that the change is compiled into it and the
// answer never goes through memory.
fn change_number(tree: &[u8], table: &mut [u8], scratch: &mut [u8], inserting: bool) -> u64
    ensures answer { result ≡ answer_number (change_result (change_of inserting (read_tree tree.now))
        tree.now table.old scratch.old).answer }
    ensures left { table.new ≡ (change_result (change_of inserting (read_tree tree.now))
        tree.now table.old scratch.old).table }
    ensures cleared { scratch.new ≡ (change_result (change_of inserting (read_tree tree.now))
        tree.now table.old scratch.old).scratch }
{
    let answer = change(tree, table, scratch, inserting);
    answer_number(answer)
}

#[unsafe(no_mangle)]
pub extern "C" fn scalebench_add(tree: &[u8], table: &mut [u8], scratch: &mut [u8]) -> u64
    ensures answer { result ≡
        answer_number (add_result tree.now table.old scratch.old).answer }
    ensures left { table.new ≡
        (add_result tree.now table.old scratch.old).table }
    ensures cleared { scratch.new ≡
        (add_result tree.now table.old scratch.old).scratch }
{
    change_number(tree, table, scratch, true)
}

#[unsafe(no_mangle)]
pub extern "C" fn scalebench_remove(tree: &[u8], table: &mut [u8], scratch: &mut [u8]) -> u64
    ensures answer { result ≡
        answer_number (remove_result tree.now table.old scratch.old).answer }
    ensures left { table.new ≡
        (remove_result tree.now table.old scratch.old).table }
    ensures cleared { scratch.new ≡
        (remove_result tree.now table.old scratch.old).scratch }
{
    change_number(tree, table, scratch, false)
}

#[unsafe(no_mangle)]
pub extern "C" fn scalebench_ask(tree: &[u8], table: &[u8]) -> u64
    ensures { result ≡ answer_number (ask_answer tree.now table.now) }
{
    let answer = ask(tree, table);
    answer_number(answer)
}

#[unsafe(no_mangle)]
pub extern "C" fn scalebench_total(table: &[u8], number: &mut u64) -> u64
    ensures answer { result ≡ answer_number (total_answer table.now) }
    ensures written { number.new ≡
        number_after (total_answer table.now) number.old }
{
    let answer = total(table);
    *number = number_after(answer, *number);
    answer_number(answer)
}

#[unsafe(no_mangle)]
pub extern "C" fn scalebench_intake(table: &[u8]) -> u64
    ensures { result ≡ answer_number (intake_answer table.now) }
{
    let answer = take_in(table);
    answer_number(answer)
}

#[unsafe(no_mangle)]
pub extern "C" fn scalebench_rank(tree: &[u8], table: &[u8], number: &mut u64) -> u64
    ensures answer { result ≡ answer_number (rank_answer tree.now table.now) }
    ensures written { number.new ≡
        number_after (rank_answer tree.now table.now) number.old }
{
    let answer = rank(tree, table);
    *number = number_after(answer, *number);
    answer_number(answer)
}

#[unsafe(no_mangle)]
pub extern "C" fn scalebench_unrank(number: u64, table: &[u8], listing: &mut [u8]) -> u64
    ensures answer { result ≡
        answer_number (unrank_result number table.now listing.old).answer }
    ensures written { listing.new ≡
        (unrank_result number table.now listing.old).lent }
{
    let answer = unrank(number, table, listing);
    answer_number(answer)
}
