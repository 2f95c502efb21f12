// Why a branch is dropped: a sentence for each rule that can leave nothing.
use crate::Act;
use crate::sentences::{about, variable};
use notation::Writer;
use print::say;
use rules::places::{AT_F1, AT_F2, AT_F3, AT_F4, AT_F5, AT_F6, AT_F7, AT_M2};

pub(crate) fn reason(w: Writer<'_>, k: &[u16], t: Act) {
    let v = variable(k, t);
    let rule = t.rule;
    match rule {
        AT_F1 => about(w, b"", v, b" would have to hold itself and more"),
        AT_F2 => about(w, b"the run ", v, b" would have to hold itself and more"),
        AT_F3 => say(
            w.out,
            b"the two parts have different names, so they are never the same",
        ),
        AT_F4 => say(
            w.out,
            b"one side is empty, and the other has at least one part",
        ),
        AT_F5 => say(w.out, b"the part has another name than the shape asks for"),
        AT_F6 => say(
            w.out,
            b"nothing stands here, and the shape asks for something",
        ),
        AT_F7 => say(
            w.out,
            b"only an empty run has this shape, and here is a part",
        ),
        AT_M2 => say(
            w.out,
            b"only an empty run has this shape, and here are parts",
        ),
        _ => say(w.out, b"no case is left"),
    }
}
