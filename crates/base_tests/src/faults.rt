use own_model::InputFault;

#[test]
fn faults_of_the_input_are_shown(rt: HostRuntime) {
    let alloc = rt.alloc();
    for (fault, shown) in [
        (
            InputFault::TooLong,
            "input refused at byte 67108864: too long",
        ),
        (InputFault::NotText(7), "input refused at byte 7: not text"),
        (
            InputFault::BadSession(10),
            "input refused at byte 10: bad session line",
        ),
        (
            InputFault::TooManyCalls(4_294_967_295),
            "input refused at byte 4294967295: too many calls",
        ),
        (InputFault::Memory, "out of memory"),
    ] {
        assert_eq!(rt;
            format!(in alloc; "{fault}").expect(&rt, "memory").as_str(),
            shown
        );
    }
}
