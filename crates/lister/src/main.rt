// Lists calls against a deck: reads the deck, the window and the calls on standard input, and prints one line for each call and
// transcript, or the line of a refusal.
#![tactic(auto)]

mod files;
mod help;
mod printing;
mod write;

ghost use Rattle.std.specs.Prelude.{◌≤◌, length};

use console::buffer;
use files::{read_file, read_to_end};
use pieces::ListingFiles;
use printing::print_listing;
use std::env::{Env, FillError};
use write::Output;

// The rooms have a byte more than a file may have, so that a longer one is seen.
fn list(rt: &HostRuntime, deck_name: &[u8], window_name: &[u8]) {
    let mut deck = buffer::<65537>();
    let mut window = buffer::<65537>();
    let mut calls = buffer::<65537>();
    let errors = rt.stderr();
    let d = read_file(rt, &errors, deck_name, &mut deck);
    let w = read_file(rt, &errors, window_name, &mut window);
    let c = read_to_end(&mut rt.stdin(), &errors, b"standard input", &mut calls);
    let files = ListingFiles {
        deck: &deck[..d],
        window: &window[..w],
        calls: &calls[..c],
    };
    let to = Output {
        to: &rt.stdout(),
        errors: &errors,
        name: b"standard output",
    };
    print_listing(&to, files);
}

// Whether an argument of that number was given.
fn is_given(rt: &impl Env, i: usize) -> bool {
    !matches!(rt.arg(i, &mut buffer::<4096>()), Err(FillError::NotPresent))
}

// The argument of that number at the start of `into`, and its length: 0 where it is missing or too long. No Option: the empty path is
// said not to open, as any path that does not.
fn argument(rt: &impl Env, i: usize, into: &mut [u8]) -> usize
    ensures { result ≤ length into.new }
{
    rt.arg(i, into).unwrap_or(0)
}

fn main(rt: HostRuntime) {
    if !is_given(&rt, 1) {
        list(&rt, b"deck.bin", b"window.bin");
        return;
    }
    let mut first = buffer::<4096>();
    let n = argument(&rt, 1, &mut first);
    if help::is_help(&first[..n]) {
        let to = Output {
            to: &rt.stdout(),
            errors: &rt.stderr(),
            name: b"standard output",
        };
        help::print(&to);
        return;
    }
    if !is_given(&rt, 2) || is_given(&rt, 3) {
        let errors = rt.stderr();
        let to = Output {
            to: &errors,
            errors: &errors,
            name: b"standard error",
        };
        help::print(&to);
        return;
    }
    let mut second = buffer::<4096>();
    let m = argument(&rt, 2, &mut second);
    list(&rt, &first[..n], &second[..m]);
}
