// Going over the pages of an object, by rising number.
ghost use Rattle.std.specs.Prelude.{◌≡◌, ◌≤◌, ◌<◌, ◌+◌, ◌^◌, IfOk, IsOk, IsSome, MatchOption, OnOk, length, slice_get};
ghost use Rattle.vm_base.specs.Limits.{most_hosts};
ghost use Rattle.vm_sets.specs.Places.{KeepsPlaces, all_marks, place_in};
ghost use Rattle.sms_server.specs.Answers.{IsEnd};
ghost use Rattle.sms_server.specs.Kept.{AreReadyToEnd, ArePlaced, EventsInTurn, RowsAfter, RowsAreSame, TakesMark, end_replies_among, is_page_at, waiting_among};
ghost use Rattle.sms_server.specs.Table.{ArePrepared, replies_among};

use crate::PageRow;
use vm_base::{HostId, NoMemory, ObjectId, PageKey};
use vm_model::{Events, Message};
use vm_sets::{ALL, PagePlaces};

// The mark of the pages for which somebody may wait; those below it are of the pages that the end of
// a host's control may change.
const WAITED: u32 = 8;

/// Whether a page stands at an index.
pub fn stands_at(rows: &[PageRow], i: usize, key: PageKey) -> bool
    ensures { result ≡ is_page_at key.object.0 key.page.0 (slice_get rows.now i) }
{
    i < rows.len() && rows[i].key.object.0 == key.object.0 && rows[i].key.page.0 == key.page.0
}

// Takes a mark off a page that is quiet.
fn unmark_if(quiet: bool, mark: u32, key: PageKey, places: &mut PagePlaces)
    requires mark { mark < all_marks }
    requires placed { IsSome (place_in places.old key.object.0 key.page.0) }
    ensures { TakesMark quiet mark key places.old places.new }
{
    if quiet {
        places.unmark(mark, key);
    }
}

// The sum of two numbers; None where it is no number of 32 bits.
fn add(sum: u32, more: usize) -> Option<u32>
    ensures { MatchOption result (2 ^ 32 ≤ sum + more) (λ all. all ≡ sum + more) }
{
    match u32::try_from(more) {
        Ok(more) => sum.checked_add(more),
        Err(_) => None,
    }
}

/// How many stand in the lines of an object's pages; None where that is no number of 32 bits.
pub fn count_waiting(rows: &[PageRow], places: &mut PagePlaces, object: ObjectId) -> Option<u32>
    requires { ArePlaced places.old rows.now }
    ensures placed { ArePlaced places.new rows.now }
    ensures kept { KeepsPlaces places.old places.new }
    ensures waiting { MatchOption result (2 ^ 32 ≤ waiting_among object.0 rows.now) (λ waiting. waiting ≡ waiting_among object.0 rows.now) }
{
    let mut walk = places.walk(object);
    let mut sum: u32 = 0;
    'pages: while let Some(place) = places.next(WAITED, &mut walk) {
        let waiting = rows[place.at as usize].directory.waiting();
        unmark_if(waiting == 0, WAITED, place.key, places);
        let Some(more) = add(sum, waiting) else {
            return None;
        };
        sum = more;
    }
    Some(sum)
}

/// Takes the memory of the next answer for each page of an object, and says how many replies they
/// have at most. It fails for want of memory alone.
pub fn reserve_rows(
    rows: &mut [PageRow],
    places: &PagePlaces,
    object: ObjectId,
) -> Result<u32, NoMemory>
    requires { ArePlaced places.now rows.old }
    ensures same { RowsAreSame rows.old rows.new }
    ensures prepared { OnOk result (ArePrepared object.0 rows.new) }
    ensures most { IfOk result (λ most. most ≡ replies_among object.0 rows.old) }
    ensures placed { ArePlaced places.now rows.new }
    ensures succeeds { ArePrepared object.0 rows.old → replies_among object.0 rows.old < 2 ^ 32 → IsOk result }
{
    let mut walk = places.walk(object);
    let mut most: u32 = 0;
    'pages: while let Some(place) = places.next(ALL, &mut walk) {
        let more = rows[place.at as usize].reserve()?;
        let Some(sum) = most.checked_add(more) else {
            return Err(NoMemory);
        };
        most = sum;
    }
    Ok(most)
}

/// Takes the memory of the answer to the end of a host's control for each page of an object that the
/// end changes, and says how many replies these have at most. It fails for want of memory alone.
pub fn reserve_ends(
    rows: &mut [PageRow],
    places: &mut PagePlaces,
    object: ObjectId,
    host: HostId,
) -> Result<u32, NoMemory>
    requires placed { ArePlaced places.old rows.old }
    requires host { host.0 < most_hosts }
    ensures placed { ArePlaced places.new rows.new }
    ensures kept { KeepsPlaces places.old places.new }
    ensures same { RowsAreSame rows.old rows.new }
    ensures ready { OnOk result (AreReadyToEnd host.0 object.0 rows.new) }
    ensures most { IfOk result (λ most. most ≡ end_replies_among host.0 object.0 rows.old) }
    ensures succeeds { ArePrepared object.0 rows.old → replies_among object.0 rows.old < 2 ^ 32 → IsOk result }
{
    let mut walk = places.walk(object);
    let mut most: u32 = 0;
    'pages: while let Some(place) = places.next(host.0, &mut walk) {
        let more = rows[place.at as usize].reserve_end(host)?;
        unmark_if(more == 0, host.0, place.key, places);
        let Some(sum) = most.checked_add(more) else {
            return Err(NoMemory);
        };
        most = sum;
    }
    Ok(most)
}

/// Tells each page of an object that a control of the host ended, the first page first.
pub fn end_rows(
    rows: &mut [PageRow],
    places: &mut PagePlaces,
    object: ObjectId,
    host: HostId,
    message: &Message,
    events: &mut Events,
) -> Result<(), NoMemory>
    requires placed { ArePlaced places.old rows.old }
    requires host { host.0 < most_hosts }
    requires end { IsEnd message.now }
    requires ready { AreReadyToEnd host.0 object.0 rows.old }
    requires room { end_replies_among host.0 object.0 rows.old ≤ events.old.room }
    ensures ok { IsOk result }
    ensures placed { ArePlaced places.new rows.new }
    ensures kept { KeepsPlaces places.old places.new }
    ensures rows { RowsAfter host.0 message.now object.0 rows.old rows.new }
    ensures events { EventsInTurn host.0 message.now object.0 rows.old events.old.items events.new.items }
    ensures few { length events.new.items ≤ length events.old.items + end_replies_among host.0 object.0 rows.old }
{
    let mut walk = places.walk(object);
    'pages: while let Some(place) = places.next(host.0, &mut walk) {
        places.touch(place.key);
        rows[place.at as usize].end(host, message, events)?;
    }
    Ok(())
}
