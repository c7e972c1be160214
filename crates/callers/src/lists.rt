// Lists and calls of a test program's input, answered as records; and a number of a crate's own among them.
use replay_text::{Call, Fill, Lists, Word, next};

// Two lists, 7, and 8 and 9; and 6 after them.
const TWO: &[u8; 119] =
    b"0000000000000002 0000000000000001 0000000000000007 0000000000000002 0000000000000008 0000000000000009 0000000000000006 ";

// As much as the traits ask.
#[derive(Clone, Copy)]
struct Octet(u8);

impl Word for Octet {
    fn of_word(w: u64) -> Octet {
        Octet((w % 256) as u8)
    }

    fn word(self) -> u64 {
        u64::from(self.0)
    }
}

impl Fill for Octet {
    const FILL: Octet = Octet(9);
}

#[test]
fn lists_are_read(rt: HostRuntime) {
    let mut input = &TWO[..];
    let lists: Lists<u64, 4> = Lists::next(&mut input);
    assert_eq!(rt; lists.list(0), [7u64].as_slice());
    assert_eq!(rt; lists.list(1), [8u64, 9].as_slice());
    assert_eq!(rt; lists.list(2).len(), 0);
    assert_eq!(rt; lists.member(1, 1), 9);
    assert_eq!(rt; lists.member(1, 2), 0);
    assert_eq!(rt; lists.member_of_all(3), 0);
    assert_eq!(rt; next::<u64>(&mut input), 6);
}

// As far as there are places.
#[test]
fn lists_are_cut_to_their_places(rt: HostRuntime) {
    let mut input = &TWO[..];
    let lists: Lists<usize, 2> = Lists::next(&mut input);
    assert_eq!(rt; lists.list(0), [7usize].as_slice());
    assert_eq!(rt; lists.list(1), [8usize].as_slice());
}

#[test]
fn lists_of_any_number_are_read(rt: HostRuntime) {
    let mut own = &TWO[..];
    let lists: Lists<Octet, 4> = Lists::next(&mut own);
    assert_eq!(rt; lists.member(1, 0).word(), 8);
    let mut signed = &b"0000000000000001 0000000000000001 fffffffffffffffe "[..];
    let lists: Lists<i64, 4> = Lists::next(&mut signed);
    assert_eq!(rt; lists.list(0), [-2i64].as_slice());
    let mut float = &b"0000000000000001 0000000000000001 3ff8000000000000 "[..];
    let lists: Lists<f64, 4> = Lists::next(&mut float);
    assert!(rt; lists.member(0, 0) == 1.5);
    let mut truth = &b"0000000000000001 0000000000000001 0000000000000001 "[..];
    let lists: Lists<bool, 4> = Lists::next(&mut truth);
    assert!(rt; lists.member(0, 0));
}

// Twelve lists, empty but the last, which has one member; and 6 after them.
#[test]
fn a_twelfth_list_is_read_and_is_none(rt: HostRuntime) {
    let mut text = [b'0'; 17 * 15];
    text[15] = b'c';
    text[17 * 12 + 15] = b'1';
    text[17 * 13 + 15] = b'5';
    text[17 * 14 + 15] = b'6';
    let mut input = &text[..];
    let lists: Lists<u64, 4> = Lists::next(&mut input);
    assert_eq!(rt; lists.list(10).len(), 0);
    assert_eq!(rt; lists.list(11).len(), 0);
    assert_eq!(rt; next::<u64>(&mut input), 6);
}

// A call that wants 1; sizes 2 and 3; 2,048 numbers given, the last of them 5, many more than `Call::read` has places for; 1,024 lent, the last of them 4;
// and 6 after them.
#[test]
fn a_call_is_read(rt: HostRuntime) {
    let mut text = [b'0'; 17 * 3082];
    text[15] = b'1';
    text[17 + 15] = b'1';
    text[17 * 2 + 15] = b'2';
    text[17 * 3 + 15] = b'2';
    text[17 * 4 + 15] = b'3';
    text[17 * 5 + 15] = b'1';
    text[17 * 6 + 13] = b'8';
    text[17 * 2054 + 15] = b'5';
    text[17 * 2055 + 15] = b'1';
    text[17 * 2056 + 13] = b'4';
    text[17 * 3080 + 15] = b'4';
    text[17 * 3081 + 15] = b'6';
    let mut input = &text[..];
    let call: Call<u64> = Call::next(&mut input);
    assert_eq!(rt; next::<u64>(&mut input), 6);
    assert_eq!(rt; call.sizes(0), [2usize, 3].as_slice());
    assert_eq!(rt; call.order(2), 0);
    assert_eq!(rt; call.given(0).len(), 2048);
    assert_eq!(rt; call.given_at(0, 2047), 5);
    assert_eq!(rt; call.held(0).len(), 1024);
    assert_eq!(rt; call.held(0).last().copied(), Some(4));
    assert!(rt; call.met(Some(1), true));
    assert!(rt; !call.met(Some(1), false));
    assert!(rt; !call.met(Some(0), true));
    let mut again = &text[..];
    let own: Call<Octet> = Call::next(&mut again);
    assert_eq!(rt; own.given_at(0, 2047).word(), 5);
    let mut floats = &text[..];
    let call: Call<f64> = Call::next(&mut floats);
    assert_eq!(rt; call.given(0).len(), 2048);
}

// 256 is a call that is to be answered, whatever the lists lent then hold.
#[test]
fn a_call_to_be_answered_is_read(rt: HostRuntime) {
    let mut input = &b"0000000000000100 0000000000000000 0000000000000000 0000000000000000 "[..];
    let call: Call<i64> = Call::next(&mut input);
    assert!(rt; call.met(Some(0), false));
    assert!(rt; !call.met(Some(1), true));
}
