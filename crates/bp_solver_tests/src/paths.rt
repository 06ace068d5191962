//! A scratch with ample memory.
use bp_paths::Scratch;
use std::test::Fail;

/// What contracts cannot say: that the call succeeds with ample memory.
#[test]
fn a_new_scratch_holds_nothing(rt: HostRuntime) -> Result<(), Fail> {
    let scratch = Scratch::new(rt.alloc(), 3, 5)?;
    for node in 0..3 {
        assert_eq!(rt; scratch.distance(node), None);
    }
    assert!(rt; scratch.path().is_empty());
    Ok(())
}
