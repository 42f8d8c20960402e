//! Groups that hold each other in loops, with places counted by hand.
use crate::groups::is_refused;
use rb_srdf::SrdfFaultKind;

// Groups, and the place of the first one that is in a loop. A group that holds one other is 41 bytes long.
const LOOPS: [(&str, u64); 3] = [
    (
        "<group name='a'><group name='b'/></group><group name='b'><group name='c'/></group><group name='c'><group name='d'/></group><group name='d'><group name='e'/></group><group name='e'><group name='c'/></group>",
        98,
    ),
    (
        "<group name='a'><group name='d'/></group><group name='b'><group name='c'/></group><group name='c'><group name='b'/></group><group name='d'><group name='e'/></group><group name='e'><group name='d'/></group>",
        57,
    ),
    (
        "<group name='a'><group name='c'/></group><group name='b'><group name='c'/></group><group name='c'><group name='d'/><group name='e'/></group><group name='d'><group name='c'/></group><group name='e'><group name='c'/></group>",
        98,
    ),
];

#[test]
fn loops_are_refused(rt: HostRuntime) {
    for (groups, at) in LOOPS.iter() {
        assert!(rt;
            is_refused(rt.alloc(), groups, SrdfFaultKind::GroupLoop, *at),
            "in {groups}"
        );
    }
}
