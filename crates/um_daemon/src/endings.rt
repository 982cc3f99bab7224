//! Reports on standard error about a store that is opened, and about the end of the serving.

use um_ctl::meaning;
use um_keeper::Uncounted;
use um_wire::Refusal;

/// Says which whole records of a store don't count, and which sector shows why.
pub fn tell_uncounted<R: Eprint>(rt: &R, cut_off: Option<Uncounted>, damaged: Option<Uncounted>) {
    if let Some(Uncounted { sector, records }) = cut_off {
        let _unheard = eprintln!(rt;
            "umd: sector {sector} is damaged, or a crash cut it off: {records} whole records behind it don't count"
        );
    }
    if let Some(Uncounted { sector, records }) = damaged {
        let _unheard = eprintln!(rt;
            "umd: sector {sector} is damaged: no header can be read there: {records} whole records of later generations don't count"
        );
    }
}

/// Says why the manager stops serving, and on the next line the meaning of the refusal and what to do.
pub fn tell_ending<R: Eprint>(rt: &R, refusal: &Refusal) {
    let _unheard = eprintln!(rt; "umd: ending: {refusal}");
    if let Some(sentence) = meaning(refusal.number()) {
        let _unheard = eprintln!(rt; "umd: {sentence}");
    }
}
