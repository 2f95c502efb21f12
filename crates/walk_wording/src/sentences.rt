// Why a step may be made: a sentence for each rule that leaves something, for someone who knows runs, blanks, parts and shape tests.
use crate::Act;
use notation::Writer;
use print::say;
use rules::places::{
    AT_D0, AT_D1, AT_D2, AT_DEL1, AT_DEL2, AT_DEL3, AT_E1, AT_E2, AT_E3, AT_E4, AT_E5, AT_E6,
    AT_E7, AT_FOLD, AT_M1, AT_M2, AT_M3, AT_M4, AT_M5, AT_M6, AT_M7, AT_M10, AT_M11, AT_M12, AT_R1,
    AT_R2,
};
use spans::hedge_end;
use words::word;

// The first word of the side that a step looks at first: of many rules the variable that it is about.
pub(crate) fn variable(k: &[u16], t: Act) -> u16 {
    let left = t.at.saturating_add(1);
    if t.swap {
        return word(k, hedge_end(k, left));
    }
    word(k, left)
}

// A sentence about a variable or a symbol.
pub(crate) fn about(w: Writer<'_>, before: &[u8], v: u16, behind: &[u8]) {
    say(w.out, before);
    w.named(v);
    say(w.out, behind);
}

// How many cases there are.
fn cases(w: Writer<'_>, n: usize) {
    let _ = match n {
        1 => print!(w.out; "one case"),
        2 => print!(w.out; "two cases"),
        3 => print!(w.out; "three cases"),
        _ => print!(w.out; "{n} cases"),
    };
}

// A sentence that ends with their number.
fn told(w: Writer<'_>, text: &[u8], n: usize) {
    say(w.out, text);
    cases(w, n);
}

// Which of the parts on the other side a run may take.
fn cuts(w: Writer<'_>, v: u16, n: usize) {
    about(w, b"the run ", v, b" ");
    match n {
        1 => say(w.out, b"can take nothing here: one case"),
        2 => say(w.out, b"may take nothing or the one part: two cases"),
        3 => say(
            w.out,
            b"may take none, one or both of the parts: three cases",
        ),
        _ => told(
            w,
            b"may take none of the parts, the first, the first two, and so on up to all: ",
            n,
        ),
    }
}

// The same where it stands in one of them itself.
fn some_cuts(w: Writer<'_>, v: u16, n: usize) {
    about(
        w,
        b"the run ",
        v,
        b" cannot reach the part that it stands in itself: ",
    );
    cases(w, n);
}

// R1, R2, the fold, Del1 to Del3, D1, D2, D0: what is the same is struck or taken apart.
fn of_same(w: Writer<'_>, v: u16, t: Act) {
    let rule = t.rule;
    match rule {
        AT_R1 => say(
            w.out,
            b"both sides are written the same, so it always holds and is struck",
        ),
        AT_R2 => say(
            w.out,
            b"nothing stands here, and the shape allows that, so it holds and is struck",
        ),
        AT_FOLD => say(
            w.out,
            b"the same is asked twice, so the later one is struck",
        ),
        AT_DEL1 => about(
            w,
            b"both sides begin with the run ",
            v,
            b", so it is struck from both",
        ),
        AT_DEL2 => say(
            w.out,
            b"their order is free, and what both sides have in common is struck from both",
        ),
        AT_DEL3 => about(
            w,
            b"the run ",
            v,
            b" stands among others on the other side, so all of those are empty",
        ),
        AT_D1 => told(
            w,
            b"the parts may stand in any order, so each order is tried: ",
            t.cases,
        ),
        AT_D2 => say(
            w.out,
            b"the first parts of both sides must be the same, and so must what follows them",
        ),
        _ => say(
            w.out,
            b"the two parts must have one name, so what is in them must be the same",
        ),
    }
}

// E1 to E7: a variable is filled in.
fn of_filled(w: Writer<'_>, v: u16, t: Act) {
    let rule = t.rule;
    match rule {
        AT_E1 => about(
            w,
            b"the blank ",
            v,
            b" is known now, and is filled in everywhere else",
        ),
        AT_E2 => about(
            w,
            b"the run ",
            v,
            b" is known now, and is filled in everywhere else",
        ),
        AT_E3 => cuts(w, v, t.cases),
        AT_E4 => some_cuts(w, v, t.cases),
        AT_E5 => about(
            w,
            b"the name ",
            v,
            b" is known now, and is filled in everywhere else",
        ),
        AT_E6 => about(
            w,
            b"the two parts must have one name, so ",
            v,
            b" is the other's and is filled in everywhere",
        ),
        _ => {
            about(
                w,
                b"the name ",
                v,
                b" may be any symbol, so each is tried: ",
            );
            cases(w, t.cases);
        }
    }
}

// M1 to M7, M10 to M12: a shape test is taken apart.
fn of_shapes(w: Writer<'_>, v: u16, t: Act) {
    let rule = t.rule;
    match rule {
        AT_M1 => say(
            w.out,
            b"only an empty run has this shape, so every run here is empty",
        ),
        AT_M2 => told(
            w,
            b"the first part fits one beginning of the shape, and what follows fits the rest: ",
            t.cases,
        ),
        AT_M3 => about(
            w,
            b"the shape is one part: the run ",
            v,
            b" is that part, or it is empty: two cases",
        ),
        AT_M4 => say(w.out, b"one part of a repeated shape has that shape once"),
        AT_M5 => say(
            w.out,
            b"one part has one of the two shapes in a row, and the other is empty: two cases",
        ),
        AT_M6 => say(w.out, b"the part has the one shape or the other: two cases"),
        AT_M7 => say(
            w.out,
            b"all of it has the one shape or the other: two cases",
        ),
        AT_M10 => about(
            w,
            b"the shape asks for its own name, so ",
            v,
            b" is that and is filled in everywhere",
        ),
        AT_M11 => say(
            w.out,
            b"the part has the name that the shape asks for, so what is in it has the shape inside",
        ),
        AT_M12 => told(
            w,
            b"the parts may stand in any order, so each order is tried: ",
            t.cases,
        ),
        _ => say(w.out, b"this holds"),
    }
}

pub(crate) fn sentence(w: Writer<'_>, k: &[u16], t: Act) {
    let v = variable(k, t);
    if t.rule <= AT_D0 {
        of_same(w, v, t);
        return;
    }
    if t.rule <= AT_E7 {
        of_filled(w, v, t);
        return;
    }
    of_shapes(w, v, t);
}
