// Reads a session in the replay format on standard input, and writes its answers on standard output.
#![tactic(auto)]

fn main(rt: HostRuntime) {
    let mut table = [0u8; document_table::TABLE_BYTES];
    replaying::run(&rt, &mut rt.stdin(), &mut table);
}
