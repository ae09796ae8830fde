// A list of exchanges.
ghost use Rattle.std.specs.Prelude.{◌≡◌, ◌+◌, ◌<◌, ◌≤◌, false, length, option_map, slice_get, vec_capacity, IfNone, IfSome};
ghost use Rattle.std.specs.List.{find, list_any};
ghost use Rattle.std.specs.Option.{option_to_list};
ghost use Rattle.pp_flow.specs.Entries.{bound_to, is_asked_by, is_number, moved_by, nobodys, IsToCome};
ghost use Rattle.pp_flow.specs.Changes.{changed, entered, is_after, is_on, line_of, place_in, without};
ghost use Rattle.pp_flow.specs.Inside.{IsFirst, entries};

use crate::entry::Entry;
use pp_objects::ObjectId;

/// Where the exchange with this number stands in the list.
pub fn index_of(list: &[Box<Entry>], number: u64) -> Option<usize>
    ensures some { IfSome result (IsFirst number (entries list.now)) }
    ensures none { IfNone result (list_any (is_number number) (entries list.now) ≡ false) }
{
    for index in 0..list.len() {
        if list[index].exchange.number == number {
            return Some(index);
        }
    }
    None
}

/// Takes the exchange with this number out of the list.
pub fn take_out(list: &mut Vec<Box<Entry>>, number: u64) -> Option<Box<Entry>>
    ensures rest { entries list.new.items ≡ without number (entries list.old.items) }
    ensures out { option_map (λ b. b.value) result ≡ find (is_number number) (entries list.old.items) }
    ensures len { length list.new.items + length (option_to_list result) ≡ length list.old.items }
    ensures capacity { vec_capacity list.new ≡ vec_capacity list.old }
{
    match index_of(list, number) {
        Some(index) => Some(list.remove(index)),
        None => None,
    }
}

/// The exchange with this number in the list.
pub fn find_in(list: &[Box<Entry>], number: u64) -> Option<&Entry>
    ensures { option_map (λ e. e.now) result ≡ find (is_number number) (entries list.now) }
{
    match index_of(list, number) {
        Some(index) => Some(&list[index]),
        None => None,
    }
}

/// The exchange at this place of the list.
pub fn entry_at(list: &[Box<Entry>], index: usize) -> Option<&Entry>
    ensures { option_map (λ e. e.now) result ≡ slice_get (entries list.now) index }
{
    if index < list.len() {
        Some(&list[index])
    } else {
        None
    }
}

/// The request of the exchange with this number leaves it.
pub fn leave_in(list: &mut [Box<Entry>], number: u64)
    ensures change { entries list.new ≡ changed number nobodys (entries list.old) }
    ensures len { length list.new ≡ length list.old }
{
    match index_of(list, number) {
        Some(index) => list[index].leave(),
        None => {}
    }
}

/// The final head of the exchange with this number came.
pub fn bind_in(list: &mut [Box<Entry>], number: u64, to: Option<(ObjectId, u64, u64, bool)>)
    ensures change { entries list.new ≡ changed number (bound_to to) (entries list.old) }
    ensures len { length list.new ≡ length list.old }
{
    match index_of(list, number) {
        Some(index) => list[index].bind(to),
        None => {}
    }
}

/// So many bytes of the span of the exchange with this number came.
pub fn came_in(list: &mut [Box<Entry>], number: u64, n: u64)
    requires { IfSome (find (is_number number) (entries list.old)) (IsToCome n) }
    ensures change { entries list.new ≡ changed number (moved_by n) (entries list.old) }
    ensures len { length list.new ≡ length list.old }
{
    match index_of(list, number) {
        Some(index) => list[index].came(n),
        None => {}
    }
}

/// The exchange comes into the list before those that began later.
pub fn enter(list: &mut Vec<Box<Entry>>, entry: Box<Entry>)
    requires { length list.old.items < vec_capacity list.old }
    ensures entered { entries list.new.items ≡ entered entry.value (entries list.old.items) }
    ensures len { length list.new.items ≡ length list.old.items + 1 }
    ensures capacity { vec_capacity list.old ≤ vec_capacity list.new }
{
    let at = place_in(list, entry.exchange.number);
    let _ = list.insert(at, entry);
}

/// How many exchanges of the list stand before the first that began after this number.
fn place_in(list: &[Box<Entry>], number: u64) -> usize
    ensures place { result ≡ place_in number (entries list.now) }
    ensures within { result ≤ length list.now }
{
    for index in 0..list.len() {
        if number < list[index].exchange.number {
            return index;
        }
    }
    list.len()
}

/// The number of the exchange at this place in the line of a connection.
pub fn line_at(list: &[Box<Entry>], connection: u64, index: usize) -> Option<u64>
    ensures { result ≡ slice_get (line_of connection (entries list.now)) index }
{
    let mut left = index;
    for at in 0..list.len() {
        if is_on(&list[at], connection) {
            if left == 0 {
                return Some(list[at].exchange.number);
            }
            left -= 1;
        }
    }
    None
}

fn is_on(entry: &Entry, connection: u64) -> bool
    ensures { result ≡ is_on connection entry.now }
{
    match entry.exchange.place {
        Some(place) => place == connection,
        None => false,
    }
}

/// The number of the first exchange of the list that began after that one.
pub fn first_after(list: &[Box<Entry>], after: Option<u64>) -> Option<u64>
    ensures { result ≡ option_map (λ e. e.exchange.number) (find (is_after after) (entries list.now)) }
{
    for index in 0..list.len() {
        if is_after(&list[index], after) {
            return Some(list[index].exchange.number);
        }
    }
    None
}

fn is_after(entry: &Entry, after: Option<u64>) -> bool
    ensures { result ≡ is_after after entry.now }
{
    match after {
        Some(number) => number < entry.exchange.number,
        None => true,
    }
}

/// The number of the first exchange of the list that the client's current request asks.
pub fn first_asked(list: &[Box<Entry>], client: u64) -> Option<u64>
    ensures { result ≡ option_map (λ e. e.exchange.number) (find (is_asked_by client) (entries list.now)) }
{
    for index in 0..list.len() {
        if is_asked_by(&list[index], client) {
            return Some(list[index].exchange.number);
        }
    }
    None
}

fn is_asked_by(entry: &Entry, client: u64) -> bool
    ensures { result ≡ is_asked_by client entry.now }
{
    match entry.exchange.asker {
        Some(asker) => asker == client,
        None => false,
    }
}
