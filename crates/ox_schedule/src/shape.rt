// The shape of a line.
ghost use Rattle.std.specs.Prelude.{◌≡◌, ◌∷◌, ◌<◌, map, length, codes, position, IfSome};
ghost use Rattle.std.specs.Option.{option_map};
ghost use Rattle.std.specs.List.{list_all};
ghost use Rattle.std.specs.Str.{bytes_eq};
ghost use Rattle.ox_schedule.specs.Shape.{ops_in, ops_left, is_compare as is_compare_word, write_fits, op_fits, get_fits, range_fits, single_fits, request_fits, client_fits, turn_fits, is_image as is_image_word, cut_fits, event_fits};

use crate::word::{first_word, is};

fn plus_place(words: &[&[u8]]) -> Option<usize>
    ensures { result ≡ position (λ w. bytes_eq w.now (codes "+")) words.now }
{
    words.iter().position(|word| is(word, b"+"))
}

/// The words before the first `+`, and those after it.
pub fn first_op<'a, 'b>(words: &'b [&'a [u8]]) -> (&'b [&'a [u8]], Option<&'b [&'a [u8]]>)
    ensures ops { ops_in (map (λ w. w.now) words.now) ≡ map (λ w. w.now) result.0.now ∷ ops_left (option_map (λ ws. map (λ w. w.now) ws.now) result.1) }
    ensures shorter { IfSome result.1 (λ rest. length rest.now < length words.now) }
{
    match plus_place(words) {
        Some(at) => (&words[..at], Some(&words[at + 1..])),
        None => (words, None),
    }
}

fn is_compare(word: &[u8]) -> bool
    ensures { result ≡ is_compare_word word.now }
{
    is(word, b"equal")
        || is(word, b"floor")
        || is(word, b"ceiling")
        || is(word, b"lower")
        || is(word, b"higher")
}

#[tactic(auto, unfolding(crate::specs::Shape::write_fits))]
fn is_write(verb: &[u8], count: usize) -> bool
    ensures { result ≡ write_fits verb.now count }
{
    if is(verb, b"put") {
        count >= 2
    } else if is(verb, b"delete") {
        1 <= count && count <= 2
    } else if is(verb, b"deleterange") {
        count == 2
    } else {
        false
    }
}

fn is_op(words: &[&[u8]]) -> bool
    ensures { result ≡ op_fits (map (λ w. w.now) words.now) }
{
    match first_word(words) {
        Some((verb, rest)) => is_write(verb, rest.len()),
        None => false,
    }
}

fn is_get(words: &[&[u8]]) -> bool
    ensures { result ≡ get_fits (map (λ w. w.now) words.now) }
{
    match first_word(words) {
        Some((compare, rest)) => is_compare(compare) && 1 <= rest.len() && rest.len() <= 2,
        None => false,
    }
}

fn is_range(count: usize) -> bool
    ensures { result ≡ range_fits count }
{
    2 <= count && count <= 3
}

fn are_ops(words: &[&[u8]]) -> bool
    ensures { result ≡ list_all op_fits (ops_in (map (λ w. w.now) words.now)) }
{
    let mut left = Some(words);
    'ops: while let Some(words) = left {
        let (op, more) = first_op(words);
        if !is_op(op) {
            return false;
        }
        left = more;
    }
    true
}

#[tactic(auto, unfolding(crate::specs::Shape::single_fits))]
fn is_single(verb: &[u8], count: usize) -> bool
    ensures { result ≡ single_fits verb.now count }
{
    if is(verb, b"notices") {
        count == 2
    } else if is(verb, b"open") || is(verb, b"close") || is(verb, b"keep") {
        count == 1
    } else {
        is_write(verb, count)
    }
}

#[tactic(auto, unfolding(crate::specs::Shape::request_fits))]
fn is_request(words: &[&[u8]]) -> bool
    ensures { result ≡ request_fits (map (λ w. w.now) words.now) }
{
    let Some((verb, rest)) = first_word(words) else {
        return false;
    };
    if is(verb, b"batch") {
        return are_ops(rest);
    }
    if is(verb, b"get") {
        return is_get(rest);
    }
    if is(verb, b"list") || is(verb, b"scan") {
        return is_range(rest.len());
    }
    is_single(verb, rest.len())
}

fn is_client(words: &[&[u8]]) -> bool
    ensures { result ≡ client_fits (map (λ w. w.now) words.now) }
{
    let Some((_, rest)) = first_word(words) else {
        return false;
    };
    let Some((_, rest)) = first_word(rest) else {
        return false;
    };
    is_request(rest)
}

#[tactic(auto, unfolding(crate::specs::Shape::turn_fits))]
fn is_turn(words: &[&[u8]]) -> bool
    ensures { result ≡ turn_fits (map (λ w. w.now) words.now) }
{
    let Some((verb, rest)) = first_word(words) else {
        return false;
    };
    if is(verb, b"client") {
        return is_client(rest);
    }
    if is(verb, b"deliver") {
        return rest.len() == 1;
    }
    is(verb, b"tick") && rest.len() == 3
}

fn is_image(word: &[u8]) -> bool
    ensures { result ≡ is_image_word word.now }
{
    is(word, b"none") || is(word, b"kept") || is(word, b"torn")
}

fn is_cut(words: &[&[u8]]) -> bool
    ensures { result ≡ cut_fits (map (λ w. w.now) words.now) }
{
    let Some((_, rest)) = first_word(words) else {
        return false;
    };
    let Some((image, rest)) = first_word(rest) else {
        return false;
    };
    is_image(image) && is_turn(rest)
}

/// Whether a line with these words can be an event, whatever its numbers, names, keys, values and options.
#[tactic(auto, unfolding(crate::specs::Shape::event_fits))]
pub fn is_event(words: &[&[u8]]) -> bool
    ensures { result ≡ event_fits (map (λ w. w.now) words.now) }
{
    let Some((verb, rest)) = first_word(words) else {
        return false;
    };
    if is(verb, b"cut") {
        return is_cut(rest);
    }
    if is(verb, b"stop") || is(verb, b"start") || is(verb, b"lose") {
        return rest.len() == 1;
    }
    if is(verb, b"fence") || is(verb, b"lead") {
        return rest.len() == 3;
    }
    is_turn(words)
}
