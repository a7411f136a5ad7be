//! Runs that succeed.
use crate::folders::{
    ADJUST_BACK, ADJUST_SITE, LIST, ROOM, file, is_silent, prints, project, put, run, same, shown,
};
use crate::sure_folders::SureFolder;
use th_devices::MemoryFolder;

/// The heights file of one sight, and of two with the weights.
const WEIGHTED: &[u8] =
    b"point,height,low,high\nA,100.00000000,100.00000000,100.00000000\nB,102.54500000,102.54500000,102.54500000\n";

/// The certificate of the two sights with the weights.
const CERTIFICATE: &[u8] =
    b"kind,key,value\nV,2,2\nH,A,100.00000000\nH,B,102.54500000\nL,A,100.00000000\nL,B,102.54500000\nU,A,100.00000000\nU,B,102.54500000\nF,1,-1\nF,2,-1\nZ,cost,1000000\n";

#[test]
fn standard_input_is_listed(rt: HostRuntime) {
    let mut folder = project(&rt, ROOM);
    assert_eq!(rt; run(&rt, &mut folder, ""), 0);
    assert!(rt; prints(&folder, LIST));
}

#[test]
fn a_file_is_listed(rt: HostRuntime) {
    let mut folder = project(&rt, ROOM);
    assert_eq!(rt; run(&rt, &mut folder, "list site.gsi"), 0);
    assert!(rt; prints(&folder, LIST));
}

/// The files of the adjustment of two sights are there, and neither stream has anything.
fn is_adjusted(folder: &MemoryFolder) -> bool {
    same(file(folder, "out.heights.csv"), WEIGHTED)
        && same(file(folder, "out.certificate.csv"), CERTIFICATE)
        && file(folder, "out.report.txt").len() > 0
        && file(folder, "out.heights.gsi").starts_with(b"*")
        && is_silent(folder)
}

#[test]
fn a_network_is_adjusted_and_its_certificate_is_accepted(rt: HostRuntime) {
    let mut folder = project(&rt, ROOM);
    assert_eq!(rt; run(&rt, &mut folder, ADJUST_BACK), 0);
    assert!(rt; is_adjusted(&folder));
    let check =
        "check --benchmarks heights --weights weights --certificate out.certificate.csv back.gsi";
    assert_eq!(rt; run(&rt, &mut folder, check), 0);
    assert!(rt; prints(&folder, b"yes\n"));
}

#[test]
fn weights_count(rt: HostRuntime) {
    let mut folder = project(&rt, ROOM);
    put(&rt, &mut folder, "certificate", CERTIFICATE);
    put(&rt, &mut folder, "heavier", b"from,to,weight\nB,A,3\n");
    let check = "check --benchmarks heights --weights heavier --certificate certificate back.gsi";
    assert_eq!(rt; run(&rt, &mut folder, check), 1);
    assert!(rt; shown(folder.output()).starts_with(b"no: ") && folder.errors().is_none());
}

#[test]
fn outputs_replace_old_files(rt: HostRuntime) {
    let mut folder = project(&rt, ROOM);
    put(&rt, &mut folder, "out.heights.csv", &[b'x'; 2_000]);
    assert_eq!(rt; run(&rt, &mut folder, ADJUST_SITE), 0);
    assert!(rt; same(file(&folder, "out.heights.csv"), WEIGHTED));
}

#[test]
fn no_device_is_blamed_where_none_may_fail(rt: HostRuntime) {
    let mut own = SureFolder {
        folder: project(&rt, ROOM),
        rt: &rt,
    };
    assert_eq!(rt; run(&rt, &mut own, ADJUST_SITE), 0);
    assert!(rt; same(file(&own.folder, "out.heights.csv"), WEIGHTED));
    let check = "check --benchmarks heights --certificate out.certificate.csv site.gsi";
    assert_eq!(rt; run(&rt, &mut own, check), 0);
    assert!(rt; same(shown(own.folder.output()), b"yes\n"));
}
