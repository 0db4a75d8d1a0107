// What is written of what was read: the same text. The digests were made with Python's hashlib.
use saved_state::{read_saved, save_text};
use std::alloc::Global;
use std::process::Abort;
use std::test::Fail;

fn is_kept(rt: &impl Abort, alloc: Global, text: &str) {
    let saved = match read_saved(alloc, text.as_bytes()) {
        Ok(saved) => saved,
        Err(_) => panic!(rt; "not read"),
    };
    let written = save_text(alloc, &saved.caps, &saved.state, &saved.tables);
    drop(saved);
    let same = match &written {
        Ok(bytes) => bytes.as_slice() == text.as_bytes(),
        Err(_) => false,
    };
    drop(written);
    assert!(rt; same);
}

#[test]
fn what_was_written_is_written_again(rt: HostRuntime) -> Result<(), Fail> {
    let table = [
        "{\"body\":{\"caps\":[0,0,0,0],\"chip\":{\"group\":[],\"host\":[],\"l2\":[],\"route\":[]},\"format\":1,\"state\":{\"intfs\":[],\"macs\":[],\"neighbors\":[],\"ports\":[],\"routes\":[],\"vlans\":[]},\"version\":0},\"digest\":\"a8de773d77824c3eb67b1c9c7d5a2a55daa9b93dbb9cdbe519430eb439c8d545\"}",
        "{\"body\":{\"caps\":[8,8,4,8],\"chip\":{\"group\":[[2,[[3,false],[0,true]]]],\"host\":[[0,\"10.0.0.2\",1,0,[\"forward\",\"02:00:00:00:00:22\",1,true]],[3,\"10.0.0.3\",1,0,[\"trap\"]]],\"l2\":[[1,\"02:00:00:00:00:22\",1,true]],\"route\":[[0,\"20.0.0.0/8\",[\"group\",2]],[0,\"30.0.0.0/8\",[\"cpu\"]],[0,\"40.0.0.0/8\",[\"drop\"]],[3,\"2001:db8::/64\",[\"host\",0]]]},\"format\":1,\"state\":{\"intfs\":[[1,1,0,\"02:00:00:00:00:01\",[\"10.0.0.1/24\",\"fe80::1/64\"]],[7,20,3,\"02:00:00:00:00:07\",[\"2001:db8::7/64\"]]],\"macs\":[[1,\"02:00:00:00:00:22\",1],[20,\"02:00:00:00:00:33\",2]],\"neighbors\":[[1,\"10.0.0.2\",\"02:00:00:00:00:22\",1],[1,\"10.0.0.3\"],[1,\"fe80::9\",\"02:00:00:00:00:29\",1],[7,\"2001:db8::9\"]],\"ports\":[[1,1,true],[2,20,false]],\"routes\":[[0,\"20.0.0.0/8\",3,\"via\",[\"10.0.0.2\",\"10.0.0.3@1\"]],[0,\"30.0.0.0/8\",1,\"cpu\"],[0,\"30.0.0.0/8\",4,\"drop\"],[3,\"2001:db8:5::/48\",2,\"via\",[\"fe80::1@7\"]]],\"vlans\":[[1,\"office\"],[20,\"lab-2\"]]},\"version\":12},\"digest\":\"4c62d889b33f6f90a3d3e4350a5e6ae052b257117ad944a77c67b267681fd325\"}",
    ];
    for text in table {
        is_kept(&rt, rt.alloc(), text);
    }
    Ok(())
}
