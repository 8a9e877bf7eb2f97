//! Sessions whose daemons refuse documents (`n` and `l`), or fail at them (`u`).

use crate::filtering::Filterings;
use crate::table::unmet;
use std::test::Fail;

#[test]
fn what_is_refused_is_set_aside_at_once(rt: HostRuntime) -> Result<(), Fail> {
    // it keeps its words, and a new change begins anew; so does one behind a password; a change that
    // is read; one among three
    const ROWS: &str = "\
n; put /d/a.txt red|changed /d/a.txt|filter|unfiltered|query red|changed /d/a.txt|pending| => Done 22: 1 ok|2 ok|3 filtered 1|4 unfiltered 1|/d/a.txt|5 hits 1 at 16|/d/a.txt|6 ok|7 pending 1|changed /d/a.txt|; 0+1
l; changed /a|filter|unfiltered|pending| => Done 12: 1 ok|2 filtered 1|3 unfiltered 1|/a|4 pending 0|; 0+1
n.1; changed /a|filter|changed /a|unfiltered|filter|query red| => Done 20: 1 ok|2 filtered 1|3 ok|4 unfiltered 0|5 filtered 0|6 hits 1 at 19|/a|; 1+1
1.n.1; changed /a|changed /b|changed /c|filter|query red|unfiltered| => Done 19: 1 ok|2 ok|3 ok|4 filtered 1|5 hits 2 at 16|/a|/c|6 unfiltered 1|/b|; 2+1";
    assert_eq!(rt; unmet::<Filterings>(rt.alloc(), ROWS)?.as_str(), "");
    Ok(())
}

#[test]
fn what_fails_is_tried_four_times(rt: HostRuntime) -> Result<(), Fail> {
    // three times, and then it is read; four times; beside a document that is read at once; one that
    // was read before keeps its words
    const ROWS: &str = "\
u.u.u.1; changed /a|filter|query red| => Done 17: 1 ok|2 filtered 0|3 hits 1 at 16|/a|; 1+3
u.u.u.u.1; changed /a|filter|query red|unfiltered| => Done 19: 1 ok|2 filtered 1|3 hits 0 at 16|4 unfiltered 1|/a|; 1+4
u.1.1; changed /a|changed /b|filter|query red| => Done 16: 1 ok|2 ok|3 filtered 0|4 hits 2 at 15|/a|/b|; 2+1
1.u.u.u.u; changed /a|filter|changed /a|filter|query red|unfiltered| => Done 26: 1 ok|2 filtered 0|3 ok|4 filtered 1|5 hits 1 at 23|/a|6 unfiltered 1|/a|; 1+4";
    assert_eq!(rt; unmet::<Filterings>(rt.alloc(), ROWS)?.as_str(), "");
    Ok(())
}

#[test]
fn failures_deaths_and_refusals_of_one_path_in_each_order(rt: HostRuntime) -> Result<(), Fail> {
    // a failure, a death and a refusal; the first two the other way; a refusal behind either alone;
    // behind a refusal a new change fails and is read, fails and dies, or dies and fails; a refusal
    // between them; two deaths and two failures, either first; a failure between deaths
    const ROWS: &str = "\
u n; changed /a|filter|unfiltered| => Done 15: 1 ok|2 filtered 1|3 unfiltered 1|/a|; 0+1 0+1
0 u.n; changed /a|filter|unfiltered| => Done 15: 1 ok|2 filtered 1|3 unfiltered 1|/a|; 0 0+2
u.n; changed /a|filter|unfiltered| => Done 12: 1 ok|2 filtered 1|3 unfiltered 1|/a|; 0+2
0 n; changed /a|filter|unfiltered| => Done 13: 1 ok|2 filtered 1|3 unfiltered 1|/a|; 0 0+1
n.u.1; changed /a|filter|changed /a|filter|query red| => Done 20: 1 ok|2 filtered 1|3 ok|4 filtered 0|5 hits 1 at 19|/a|; 1+2
n.u 0 1; changed /a|filter|changed /a|filter|query red| => Done 26: 1 ok|2 filtered 1|3 ok|4 filtered 0|5 hits 1 at 25|/a|; 0+2 0 1
n u.1; changed /a|filter|changed /a|filter|query red| => Done 23: 1 ok|2 filtered 1|3 ok|4 filtered 0|5 hits 1 at 22|/a|; 0+1 1+1
u.n 0 1; changed /a|filter|changed /a|filter|query red| => Done 26: 1 ok|2 filtered 1|3 ok|4 filtered 0|5 hits 1 at 25|/a|; 0+2 0 1
0 n.u.1; changed /a|filter|changed /a|filter|query red| => Done 23: 1 ok|2 filtered 1|3 ok|4 filtered 0|5 hits 1 at 22|/a|; 0 1+2
0 0 u.u.1; changed /a|filter|unfiltered| => Done 18: 1 ok|2 filtered 1|3 unfiltered 1|/a|; 0 0 1+2
u.u 0 1; changed /a|filter|unfiltered| => Done 17: 1 ok|2 filtered 1|3 unfiltered 1|/a|; 0+2 0
0 u 1; changed /a|filter|query red| => Done 19: 1 ok|2 filtered 0|3 hits 1 at 18|/a|; 0 0+1 1";
    assert_eq!(rt; unmet::<Filterings>(rt.alloc(), ROWS)?.as_str(), "");
    Ok(())
}
