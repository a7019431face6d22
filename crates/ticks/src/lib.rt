// Where the last run of each length ends, so that a search for a run that is not there need not be made.
#![tactic(auto)]

ghost use Rattle.std.specs.Prelude.{◌≡◌, false, ◌<◌, ◌^◌, length, get_or, drop, set, replicate, None};
ghost use Rattle.scan.specs.Reading.{past};
ghost use Rattle.inline.specs.Pieces.{backtick};
ghost use Rattle.inline.specs.ReadingPieces.{closing_run};
ghost use Rattle.ticks.specs.LastRuns.{lengths, other_byte, LastRuns, Ready};

use scan::Class;

// A table of last runs has a place for the lengths below this one. A note has room for at most 31 runs of this length or more.
pub const LENGTHS: usize = 1024;

// A text shorter than this is searched sooner than the table is cleared.
const SHORT: usize = 48;

struct Backtick;

impl Class<u8> for Backtick {
    ghost has = { λ _ b. backtick b };

    fn holds(&self, b: u8) -> bool {
        b == 96
    }
}

struct OtherByte;

impl Class<u8> for OtherByte {
    ghost has = { λ _ b. other_byte b };

    fn holds(&self, b: u8) -> bool {
        b != 96
    }
}

// The first place from `at` on where no backtick stands; the end is one. Most runs are shorter than four.
pub fn backticks_end(s: &[u8], at: usize) -> usize
    ensures { result ≡ past backtick s.now at }
{
    scan::past_after::<u8, Backtick, 4>(s, at, &Backtick)
}

// The first place from `at` on where a backtick stands; the end is one.
fn next_backtick(s: &[u8], at: usize) -> usize
    ensures { result ≡ past other_byte s.now at }
{
    scan::past_after::<u8, OtherByte, 16>(s, at, &OtherByte)
}

// Where the first maximal run of exactly `n` backticks ends, from `at` on, which is not inside a run.
fn closing_run(s: &[u8], at: usize, n: usize) -> Option<usize>
    requires { 0 < n }
    ensures { result ≡ closing_run n (drop at s.now) at }
{
    let mut i = at;
    // No range: the place leaps to the end of each run.
    while i < s.len() {
        let a = next_backtick(s, i);
        let e = backticks_end(s, a);
        if e - a == n {
            return Some(e);
        }
        i = e;
    }
    None
}

// The table with `e` for runs of `n`, where it has a place for them.
fn put(table: &mut [u32; LENGTHS], n: usize, e: usize)
    requires table_len { length table.old ≡ lengths }
    requires e_bound { e < 2 ^ 32 }
    ensures { table.new ≡ set table.old n e }
{
    if n < LENGTHS {
        table[n] = e as u32;
    }
}

// For each length that the table, which is empty, has a place for the end of the last maximal run of exactly so many backticks in `p`,
// and 0 where there is none: no place is below it, so that whoever asks for a later run needs no test for it.
fn last_runs(p: &[u8], table: &mut [u32; LENGTHS])
    requires p_len_bound { length p.now < 2 ^ 32 }
    requires cleared { table.old ≡ replicate lengths 0 }
    ensures { LastRuns p.now table.new }
{
    let mut i = 0;
    // No range: the place leaps to the end of each run.
    while i < p.len() {
        let a = next_backtick(p, i);
        let e = backticks_end(p, a);
        put(table, e - a, e);
        i = e;
    }
}

// Where the first maximal run of exactly `n` backticks ends, from `at` on, which is not inside a run.
fn closing_run_quick(p: &[u8], at: usize, n: usize, table: &[u32; LENGTHS]) -> Option<usize>
    requires n_nonzero { 0 < n }
    requires at_value { backtick (get_or p.now at 0) ≡ false }
    requires last_runs { LastRuns p.now table.now }
    ensures { result ≡ closing_run n (drop at p.now) at }
{
    if n < LENGTHS && table[n] as usize <= at {
        return None;
    }
    closing_run(p, at, n)
}

// Says anew that no table is made. Most texts make none, and where there is none, nothing is written.
pub fn forget(runs: &mut Option<[u32; LENGTHS]>)
    ensures { runs.new ≡ None }
{
    if runs.is_some() {
        *runs = None;
    }
}

// The same with a table that is made once a search has found nothing. Where every run is closed it is never made, and for a short text
// neither.
pub fn closing_run_lazy(
    p: &[u8],
    at: usize,
    n: usize,
    runs: &mut Option<[u32; LENGTHS]>,
) -> Option<usize>
    requires n_nonzero { 0 < n }
    requires at_value { backtick (get_or p.now at 0) ≡ false }
    requires p_len_bound { length p.now < 2 ^ 32 }
    requires ready { Ready p.now runs.old }
    ensures value { result ≡ closing_run n (drop at p.now) at }
    ensures ready_2 { Ready p.now runs.new }
{
    if p.len() < SHORT {
        return closing_run(p, at, n);
    }
    if let Some(table) = runs {
        return closing_run_quick(p, at, n, table);
    }
    let end = closing_run(p, at, n);
    if end.is_none() {
        last_runs(p, runs.insert([0; LENGTHS]));
    }
    end
}
