// What reading answers: one table of texts, each with the first test that it fails. The digests were made with Python's
// hashlib.
use saved_state::{SavedFault, read_saved};
use std::alloc::Global;
use std::process::Abort;
use std::test::Fail;
use switch_model::Reason;

fn answers(rt: &impl Abort, alloc: Global, text: &str, wanted: Option<SavedFault>) {
    let found = match read_saved(alloc, text.as_bytes()) {
        Ok(saved) => {
            drop(saved);
            None
        }
        Err(fault) => Some(fault),
    };
    assert!(rt; found == wanted);
}

#[test]
fn each_text_is_told_by_its_first_fault(rt: HostRuntime) -> Result<(), Fail> {
    let table = [
        ("", Some(SavedFault::NotJson)),
        ("1e999", Some(SavedFault::NotJson)),
        ("[[1,]]", Some(SavedFault::NotJson)),
        ("{}", Some(SavedFault::BadShape)),
        (
            "{\"body\":{\"caps\":[0,0,0,0],\"chip\":{\"group\":[],\"host\":[],\"l2\":[],\"route\":[]},\"format\":1,\"state\":{\"intfs\":[],\"macs\":[],\"neighbors\":[],\"ports\":[],\"routes\":[],\"vlans\":[]},\"version\":0}}",
            Some(SavedFault::BadShape),
        ),
        (
            "{\"body\":{\"caps\":[0,0,0,0],\"chip\":{\"group\":[],\"host\":[],\"l2\":[],\"route\":[]},\"format\":9,\"state\":{\"intfs\":[],\"macs\":[],\"neighbors\":[],\"ports\":[],\"routes\":[],\"vlans\":[]},\"version\":0},\"digest\":\"5cd3e58f70839defeff7d4005f09daccc02ce78549bd172242471e6709f7f1ac\"}",
            Some(SavedFault::BadShape),
        ),
        (
            "{\"body\":{\"caps\":[0,0,0],\"chip\":{\"group\":[],\"host\":[],\"l2\":[],\"route\":[]},\"format\":1,\"state\":{\"intfs\":[],\"macs\":[],\"neighbors\":[],\"ports\":[],\"routes\":[],\"vlans\":[]},\"version\":0},\"digest\":\"c77f2664c24ef9cb1cc518f6b5f641cffbd5e1a6838d3bc6eca6d8104d462629\"}",
            Some(SavedFault::BadShape),
        ),
        (
            "{\"body\":{\"caps\":[0,0,0,0],\"chip\":{\"group\":[],\"host\":[],\"l2\":[],\"route\":[]},\"format\":1,\"state\":{\"intfs\":[],\"macs\":[],\"neighbors\":[],\"ports\":[],\"routes\":[],\"vlans\":[]},\"version\":9223372036854775808},\"digest\":\"3767ffb43238c496d74ae5ad7aab65e1719d5907dc965839a09125ef7300f5c5\"}",
            Some(SavedFault::BadShape),
        ),
        (
            "{\"body\":{\"caps\":[0,0,0,0],\"chip\":{\"group\":[],\"host\":[],\"l2\":[],\"route\":[]},\"format\":1,\"state\":{\"intfs\":[],\"macs\":[],\"neighbors\":[],\"ports\":[],\"routes\":[],\"vlans\":[[1,\"a\"],[1,\"b\"]]},\"version\":0},\"digest\":\"394fb411be62a36eb3f5d16e13b0f32a26d1a40edf30cb1232182f514897d689\"}",
            Some(SavedFault::BadShape),
        ),
        (
            "{\"body\":{\"caps\":[0,0,0,0],\"chip\":{\"group\":[],\"host\":[],\"l2\":[],\"route\":[]},\"format\":1,\"state\":{\"intfs\":[],\"macs\":[],\"neighbors\":[],\"ports\":[],\"routes\":[],\"vlans\":[[1,\"A\"]]},\"version\":0},\"digest\":\"73f8fb92049778556611259130e82158158180305256ec6415dfadfd78056315\"}",
            Some(SavedFault::BadShape),
        ),
        (
            "{\"body\":{\"caps\":[0,0,0,0],\"chip\":{\"group\":[],\"host\":[],\"l2\":[],\"route\":[]},\"format\":1,\"state\":{\"intfs\":[],\"macs\":[],\"neighbors\":[],\"ports\":[[1,5,false]],\"routes\":[],\"vlans\":[]},\"version\":0},\"digest\":\"d6e9893e5ad43def4b1df0dc51a34c4db6ace3b2c0c7a2d47d596691efa8db9c\"}",
            Some(SavedFault::BadState(Reason::NoVlan)),
        ),
        (
            "{\"body\":{\"caps\":[0,0,0,0],\"chip\":{\"group\":[],\"host\":[],\"l2\":[],\"route\":[]},\"format\":1,\"state\":{\"intfs\":[],\"macs\":[[1,\"01:00:00:00:00:01\",1]],\"neighbors\":[],\"ports\":[[1,1,false]],\"routes\":[],\"vlans\":[[1,\"a\"]]},\"version\":0},\"digest\":\"9d8d325ea553923ec4cb9f15bfb60d052b72acc906064e95cce855fdcf562c9c\"}",
            Some(SavedFault::BadState(Reason::BadMac)),
        ),
        (
            "{\"body\":{\"caps\":[0,0,0,0],\"chip\":{\"group\":[],\"host\":[],\"l2\":[],\"route\":[[0,\"10.0.0.0/8\",[\"cpu\"]]]},\"format\":1,\"state\":{\"intfs\":[],\"macs\":[],\"neighbors\":[],\"ports\":[],\"routes\":[],\"vlans\":[]},\"version\":0},\"digest\":\"6e2a8810f7daa224ff32abbbf085614555b10535f4a55ebfb2bfae6f8db59c21\"}",
            None,
        ),
        (
            "{\"body\": {\"caps\":[0,0,0,0],\"chip\":{\"group\":[],\"host\":[],\"l2\":[],\"route\":[]} , \"format\":1,\"state\":{\"intfs\":[],\"macs\":[],\"neighbors\":[],\"ports\":[],\"routes\":[],\"vlans\":[]},\"version\" : 0} , \"digest\" : \"a8de773d77824c3eb67b1c9c7d5a2a55daa9b93dbb9cdbe519430eb439c8d545\" }",
            None,
        ),
        (
            "{\"body\":{\"caps\":[0,0,0,0],\"chip\":{\"group\":[],\"host\":[],\"l2\":[],\"route\":[]},\"format\":1,\"state\":{\"intfs\":[],\"macs\":[],\"neighbors\":[],\"ports\":[],\"routes\":[],\"vlans\":[]},\"version\":9223372036854775807},\"digest\":\"3a3eae3613a9b6fc16cf542034b62a75f2c997f0779636f61c215fb9ed3ead6b\"}",
            None,
        ),
        (
            "{\"digest\":\"a8de773d77824c3eb67b1c9c7d5a2a55daa9b93dbb9cdbe519430eb439c8d545\",\"body\":{\"caps\":[0,0,0,0],\"chip\":{\"group\":[],\"host\":[],\"l2\":[],\"route\":[]},\"format\":1,\"state\":{\"intfs\":[],\"macs\":[],\"neighbors\":[],\"ports\":[],\"routes\":[],\"vlans\":[]},\"version\":0}}\n",
            None,
        ),
        (
            "{\"body\":{\"caps\":[0,0,0,0],\"chip\":{\"group\":[],\"host\":[],\"l2\":[],\"route\":[]},\"format\":1,\"state\":{\"intfs\":[],\"macs\":[],\"neighbors\":[],\"ports\":[],\"routes\":[],\"vlans\":[]},\"version\":0},\"digest\":\"A8DE773D77824C3EB67B1C9C7D5A2A55DAA9B93DBB9CDBE519430EB439C8D545\"}",
            Some(SavedFault::BadShape),
        ),
        (
            "{\"body\":{\"caps\":[0,0,0,0],\"chip\":{\"group\":[],\"host\":[],\"l2\":[],\"route\":[]},\"format\":1,\"state\":{\"intfs\":[],\"macs\":[],\"neighbors\":[],\"ports\":[],\"routes\":[],\"vlans\":[]},\"version\":0},\"digest\":\"0000000000000000000000000000000000000000000000000000000000000000\"}",
            Some(SavedFault::BadDigest),
        ),
        (
            "{\"body\":{\"caps\":[0,0,0,0],\"chip\":{\"group\":[],\"host\":[],\"l2\":[],\"route\":[]},\"format\":1,\"state\":{\"intfs\":[],\"macs\":[],\"neighbors\":[],\"ports\":[],\"routes\":[],\"vlans\":[]},\"version\":0.0},\"digest\":\"7864ba51e5c98ee8915a1437cbfac81f018e3abb5f94c9987c6c52df46329f9d\"}",
            Some(SavedFault::BadShape),
        ),
        (
            "{\"body\":{\"caps\":[0,0,0,0],\"chip\":{\"group\":[],\"host\":[],\"l2\":[],\"route\":[]},\"format\":1,\"state\":{\"intfs\":[],\"macs\":[],\"neighbors\":[],\"ports\":[],\"routes\":[],\"vlans\":[]},\"version\":-1},\"digest\":\"bd3fd8b71f6018903230ba4d599e8644b19a095725e240635e3937483a17f933\"}",
            Some(SavedFault::BadShape),
        ),
        (
            "{\"body\":{\"caps\":[0,0,0,0],\"chip\":{\"group\":[],\"host\":[],\"l2\":[],\"route\":[]},\"format\":1,\"state\":{\"intfs\":[],\"macs\":[],\"neighbors\":[],\"ports\":[],\"routes\":[],\"vlans\":[]},\"version\":0,\"w\":0},\"digest\":\"a1fb8c9d33a3b51b86089e7f6cc22a80b91e6d525a0ce7ad7e560b879dda1609\"}",
            Some(SavedFault::BadShape),
        ),
        (
            "{\"body\":{\"caps\":[0,0,0,0],\"chip\":{\"group\":[],\"host\":[],\"l2\":[],\"route\":[]},\"format\":1,\"state\":{\"intfs\":[],\"macs\":[],\"neighbors\":[],\"ports\":[],\"routes\":[[0,\"10.0.0.0/8\",1,\"via\",[]]],\"vlans\":[]},\"version\":0},\"digest\":\"8fa985f5ec9f4fd6ece5ae4077df14593a6322a337e698c81e49f95197bfade5\"}",
            Some(SavedFault::BadState(Reason::NoHops)),
        ),
        (
            "{\"body\":{\"caps\":[0,0,0,0],\"chip\":{\"group\":[],\"host\":[],\"l2\":[],\"route\":[]},\"format\":1,\"state\":{\"intfs\":[],\"macs\":[],\"neighbors\":[],\"ports\":[],\"routes\":[[0,\"10.0.0.0/8\",0,\"cpu\"]],\"vlans\":[]},\"version\":0},\"digest\":\"36e6f15ea2eccd484eff20d2ba637d9330a6736147c959c291e0bdd8ed5fd3f9\"}",
            Some(SavedFault::BadState(Reason::InterfaceClient)),
        ),
        (
            "{\"body\":{\"caps\":[0,0,0,0],\"chip\":{\"group\":[],\"host\":[],\"l2\":[],\"route\":[]},\"format\":1,\"state\":{\"intfs\":[],\"macs\":[],\"neighbors\":[],\"ports\":[],\"routes\":[[0,\"10.0.0.0/8\",5,\"cpu\"]],\"vlans\":[]},\"version\":0},\"digest\":\"85fdf9dc1bb99932c9af0257498e7b40eae94f384f9b444b8a9c1f1f6eb3efc1\"}",
            Some(SavedFault::BadShape),
        ),
        (
            "{\"body\":{\"caps\":[0,0,0,0],\"chip\":{\"group\":[],\"host\":[],\"l2\":[],\"route\":[]},\"format\":1,\"state\":{\"intfs\":[],\"macs\":[],\"neighbors\":[],\"ports\":[],\"routes\":[[0,\"10.0.0.0/8\",1,\"via\",[\"10.0.0.2\",\"10.0.0.1\"]]],\"vlans\":[]},\"version\":0},\"digest\":\"533ca53af1ed1c90ed1eb8437950d3f911b4bf6a32f84986660497359a13d187\"}",
            Some(SavedFault::BadShape),
        ),
        (
            "{\"body\":{\"caps\":[0,0,0,0],\"chip\":{\"group\":[],\"host\":[],\"l2\":[],\"route\":[]},\"format\":1,\"state\":{\"intfs\":[],\"macs\":[],\"neighbors\":[],\"ports\":[],\"routes\":[[0,\"010.0.0.0/8\",1,\"cpu\"]],\"vlans\":[]},\"version\":0},\"digest\":\"8772c1a348e70ee4c862bcd6fa19f64149dc0c11afb6a04858ad63acb82b1c0b\"}",
            Some(SavedFault::BadShape),
        ),
        (
            "{\"body\":{\"caps\":[0,0,0,0],\"chip\":{\"group\":[],\"host\":[],\"l2\":[],\"route\":[]},\"format\":1,\"state\":{\"intfs\":[],\"macs\":[],\"neighbors\":[],\"ports\":[],\"routes\":[[0,\"10.0.0.0/8\",1,\"drop\"]],\"vlans\":[]},\"version\":0},\"digest\":\"42e383e1a1df127850054f9fb2945d3d50e09731b0a821453e4e94a779bd2bc6\"}",
            None,
        ),
        (
            "{\"body\":{\"caps\":[0,0,0,0],\"chip\":{\"group\":[],\"host\":[],\"l2\":[],\"route\":[]},\"format\":1,\"state\":{\"intfs\":[],\"macs\":[],\"neighbors\":[],\"ports\":[],\"routes\":[],\"vlans\":[]},\"version\":\"0\"},\"digest\":\"a8de773d77824c3eb67b1c9c7d5a2a55daa9b93dbb9cdbe519430eb439c8d545\"}",
            Some(SavedFault::BadShape),
        ),
        (
            "{\"body\":{\"caps\":[0,0,0,0],\"chip\":{\"group\":[],\"host\":[],\"l2\":[],\"route\":[]},\"format\":9,\"format\":1,\"state\":{\"intfs\":[],\"macs\":[],\"neighbors\":[],\"ports\":[],\"routes\":[],\"vlans\":[]},\"version\":0},\"digest\":\"a8de773d77824c3eb67b1c9c7d5a2a55daa9b93dbb9cdbe519430eb439c8d545\"}",
            None,
        ),
    ];
    for (text, wanted) in table {
        answers(&rt, rt.alloc(), text, wanted);
    }
    Ok(())
}
