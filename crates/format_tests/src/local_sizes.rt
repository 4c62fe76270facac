//! How much of a payload its cell keeps.

use db_format::local_size;

#[test]
fn payloads_keep_so_many_bytes(rt: HostRuntime) {
    let cases = [
        (512, 0, 0),
        (512, 477, 477),
        (512, 478, 39),
        (512, 600, 92),
        (4096, 4061, 4061),
        (4096, 4062, 489),
        (65536, 65501, 65501),
        (65536, 65502, 8199),
    ];
    for (usable, payload, local) in cases {
        assert!(rt; local_size(usable, payload) == local, "{usable} {payload}");
    }
}
