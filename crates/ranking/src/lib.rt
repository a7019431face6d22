// An order on link labels by their compared forms, and a key of each form. Both are read off the label with no copy, as labels are compared.
#![tactic(auto)]

ghost use Rattle.std.specs.Prelude.{◌≡◌};
ghost use Rattle.matching.specs.Reading.{compared};
ghost use Rattle.alike.specs.Reading.{gap};
ghost use Rattle.alike.specs.Left.{form_from};
ghost use Rattle.order.specs.Order.{order, mix, mixed, front, key};
ghost use Rattle.ranking.specs.Gap.{mix_gap};

use alike::{Form, Place};
use folding::Table;
use std::cmp::Ordering;

// One byte more mixed in.
#[tactic(auto, unfolding(order::specs::Order::mix))]
fn mixed_in(h: u32, b: u8) -> u32
    ensures { result ≡ mix h b }
{
    ((u64::from(h) + u64::from(b) + 1) * 2654435761 % 4294967296) as u32
}

// The front of a mix, which is the key.
#[tactic(auto, unfolding(order::specs::Order::front))]
fn front_of(h: u32) -> u32
    ensures { result ≡ front h }
{
    h / 16384
}

// The key of what is left of a label from `from` on, where `first` was mixed of what comes before.
#[inline(never)]
fn key_by_table(s: &[u8], from: usize, first: u32) -> u32
    ensures { result ≡ front (mixed first (form_from s.now from)) }
{
    let table = Table::new();
    let mut h = first;
    for b in Form::after(&table, s, from) {
        h = mixed_in(h, b);
    }
    front_of(h)
}

// The mix with the space that the blanks before a place count as, if they do.
fn mixed_gap(h: u32, place: &Place) -> u32
    ensures { result ≡ mix_gap h (gap place.now.from place.now.at) }
{
    if place.has_gap() {
        return mixed_in(h, b' ');
    }
    h
}

// The key of a label. ASCII needs no table.
pub fn key_of(s: &[u8]) -> u32
    ensures { result ≡ key (compared s.now) }
{
    let mut i = 0;
    let mut h = 0;
    loop {
        let b = scan::peek(s, i);
        if (32 < b) & (b <= alike::ASCII) {
            h = mixed_in(h, folding::lowered(b));
            i += 1;
            continue;
        }
        let place = Place::after(s, i);
        if place.is_over() {
            return front_of(h);
        }
        let b = place.byte();
        if alike::ASCII < b {
            return key_by_table(s, i, h);
        }
        h = mixed_in(mixed_gap(h, &place), folding::lowered(b));
        i = place.at + 1;
    }
}

// How what is left of two labels from `from` on stands in the order.
#[inline(never)]
fn compare_by_table(a: &[u8], b: &[u8], from: usize) -> Ordering
    ensures { result ≡ order (form_from a.now from) (form_from b.now from) }
{
    let table = Table::new();
    let mut own = Form::after(&table, a, from);
    let mut other = Form::after(&table, b, from);
    loop {
        match (own.next(), other.next()) {
            (Some(x), Some(y)) => {
                if x != y {
                    return x.cmp(&y);
                }
            }
            (Some(_), None) => return Ordering::Less,
            (None, Some(_)) => return Ordering::Greater,
            (None, None) => return Ordering::Equal,
        }
    }
}

// How two labels stand in the order. The bytes that both start with are passed, and where ASCII differs after them no table is needed.
pub fn compare(a: &[u8], b: &[u8]) -> Ordering
    ensures { result ≡ order (compared a.now) (compared b.now) }
{
    let n = alike::same_count(a, b, 0, 0, alike::ASCII);
    let x = scan::peek(a, n);
    let y = scan::peek(b, n);
    if alike::are_unlike(x, y) {
        return folding::lowered(x).cmp(&folding::lowered(y));
    }
    compare_by_table(a, b, n)
}
