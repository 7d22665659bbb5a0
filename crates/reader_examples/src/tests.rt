// The worked image whole, cut short, and with one byte changed; and the text that answers it.
use answer::answer;
use axis::Axis;
use list_axis::ListAxis;
use matrix_axis::MatrixAxis;
use reader::read;
use sheet::Sheet;
use std::alloc::{AllocError, Global};
use std::process::Abort;
use std::test::Fail;

// A line for the head, for each stay and for the entries.
const IMAGE: [u8; 50] = *b"\
    \x00\x30\x01\x00\x07\x00\x64\x03\
    \x08\x00\x5A\x00\x0A\x00\x3C\x00\x3C\
    \x08\x00\x78\x00\x00\x00\x78\x00\x3C\
    \x0C\x00\x3C\x00\x00\x00\x1E\x00\x28\x00\x00\x00\x02\
    \x02\x54\x01\x02\xFF\xFD\x50\x01\x03\xFF\xC4";

// The byte at which each field of the image begins, after the version.
const FIELDS: [usize; 29] = [
    3, 5, 7, 8, 9, 11, 13, 15, 17, 18, 20, 22, 24, 26, 27, 29, 31, 33, 35, 37, 39, 40, 41, 42, 43,
    45, 46, 47, 48,
];

// The byte, what stands there instead, the refusal's number and its byte.
const CHANGES: [(usize, u8, u8, usize); 26] = [
    (1, 0x31, 31, 0),
    (0, 1, 31, 0),
    (2, 2, 32, 2),
    (8, 9, 34, 8),
    (26, 10, 34, 26),
    (17, 12, 34, 30),
    (7, 4, 34, 39),
    (7, 2, 33, 50),
    (39, 1, 33, 45),
    (39, 3, 33, 50),
    (4, 0, 11, 3),
    (5, 0xFF, 11, 3),
    (10, 0, 13, 8),
    (19, 0, 13, 17),
    (12, 31, 14, 8),
    (20, 0xFF, 14, 17),
    (16, 101, 15, 8),
    (34, 0, 15, 26),
    (38, 1, 16, 26),
    (37, 1, 16, 26),
    (40, b't', 17, 40),
    (45, b'X', 17, 45),
    (41, 4, 3, 40),
    (43, 0x80, 4, 40),
    (44, 0x80, 6, 40),
    (48, 0xFE, 6, 45),
];

const STAY: [u8; 9] = *b"\x08\x00\x1E\x00\x00\x00\x00\x00\x01";

// A function, so that no proof computes what the image tells.
fn worked() -> [u8; 50] {
    IMAGE
}

fn changed(at: usize, value: u8) -> [u8; 50] {
    let mut image = worked();
    if let Some(byte) = image.get_mut(at) {
        *byte = value;
    }
    image
}

// A head, one part so many times, and what comes behind; the first two bytes count the others.
#[derive(Clone, Copy)]
struct Parts<'a> {
    head: &'a [u8],
    part: &'a [u8],
    times: u8,
    tail: &'a [u8],
}

impl Parts<'_> {
    fn body(&self, heap: Global) -> Result<Vec<u8>, AllocError> {
        let mut body = Vec::from_slice(heap, self.head)?;
        for _ in 0..self.times {
            body.extend_from_slice(self.part)?;
        }
        body.extend_from_slice(self.tail)?;
        Ok(body)
    }

    fn image(&self, heap: Global) -> Result<Vec<u8>, AllocError> {
        let body = self.body(heap)?;
        let length = (body.len() % 65536) as u16;
        let mut image = Vec::from_slice(heap, &length.to_be_bytes())?;
        image.extend_from_slice(body.as_slice())?;
        Ok(image)
    }
}

// The refusal's number and its byte, or none.
fn refusal<T: Axis, P: Axis>(image: &[u8], sheet: &mut Sheet<T, P>) -> Option<(u8, usize)> {
    let fault = read(image, sheet).err()?;
    Some((fault.cause.number(), fault.offset))
}

// A refusal before the first entry leaves the sheet as it was, and one at an entry leaves it as a new one.
fn refused<T: Axis, P: Axis>(
    rt: &impl Abort,
    sheet: &mut Sheet<T, P>,
    image: &[u8],
    fault: (u8, usize),
) {
    assert_eq!(rt; refusal(&worked(), sheet), None);
    assert_eq!(rt; refusal(image, sheet), Some(fault));
    let (number, offset) = fault;
    let left = if offset >= 40 && number < 31 { 0 } else { 3 };
    assert_eq!(rt; sheet.stays().len(), left);
}

fn refused_parts<T: Axis, P: Axis>(
    rt: &impl Abort,
    heap: Global,
    sheet: &mut Sheet<T, P>,
    parts: &Parts<'_>,
    fault: (u8, usize),
) -> Result<(), Fail> {
    let image = parts.image(heap)?;
    refused(rt, sheet, image.as_slice(), fault);
    Ok(())
}

fn one_byte_changed<T: Axis, P: Axis>(rt: &impl Abort, sheet: &mut Sheet<T, P>) {
    for &(at, value, number, offset) in &CHANGES {
        refused(rt, sheet, &changed(at, value), (number, offset));
    }
}

fn whole<T: Axis, P: Axis>(rt: &impl Abort, sheet: &mut Sheet<T, P>) {
    assert_eq!(rt; refusal(&worked(), sheet), None);
    assert_eq!(rt; sheet.span(), 7);
    assert_eq!(rt; sheet.metres(), 100);
    assert_eq!(rt; sheet.stays().len(), 3);
    assert_eq!(rt; sheet.entries().len(), 2);
}

// The length counts the whole image still.
fn cut_short<T: Axis, P: Axis>(rt: &impl Abort, sheet: &mut Sheet<T, P>) {
    for n in 0..50 {
        assert_eq!(rt; refusal(&worked()[0..n], sheet), Some((31, 0)));
    }
}

// The length counts what is left; the refusal is at the last field that begins there.
fn cut_short_with_its_length<T: Axis, P: Axis>(rt: &impl Abort, sheet: &mut Sheet<T, P>) {
    assert_eq!(rt; refusal(&changed(1, 0)[0..2], sheet), Some((32, 2)));
    for n in 3..50 {
        let image = changed(1, n as u8 - 2);
        let field = FIELDS.iter().copied().filter(|at| *at <= n).last();
        assert_eq!(rt; refusal(&image[0..n], sheet), field.map(|at| (33, at)));
    }
}

// All fields are walked before the sheet is asked: 255 stays and as many entries.
fn too_many<T: Axis, P: Axis>(
    rt: &impl Abort,
    heap: Global,
    sheet: &mut Sheet<T, P>,
) -> Result<(), Fail> {
    let thirteen = Parts {
        head: b"\x01\x00\x07\x00\x64\x0D",
        part: &STAY,
        times: 13,
        tail: b"\x00",
    };
    refused_parts(rt, heap, sheet, &thirteen, (12, 7))?;
    let cut = Parts {
        head: b"\x01\x00\x07\x00\x64\xFF",
        part: &STAY,
        times: 255,
        tail: b"\x01T",
    };
    refused_parts(rt, heap, sheet, &cut, (33, 2305))?;
    let entries = Parts {
        head: b"\x01\x00\x07\x00\x64\x01\x08\x00\x1E\x00\x00\x00\x00\x00\x01\x19",
        part: b"T\x01\x01\x00\x00",
        times: 25,
        tail: b"",
    };
    refused_parts(rt, heap, sheet, &entries, (18, 138))
}

// Lead and dwell are 65535 seconds each, and a window from step 65535 on.
fn sums_do_not_wrap<T: Axis, P: Axis>(
    rt: &impl Abort,
    heap: Global,
    sheet: &mut Sheet<T, P>,
) -> Result<(), Fail> {
    let doors = Parts {
        head: b"\x01\x00\x07\x00\x64\x01",
        part: b"\x08\x00\x1E\xFF\xFF\xFF\xFF\x00\x01",
        times: 1,
        tail: b"\x00",
    };
    refused_parts(rt, heap, sheet, &doors, (14, 8))?;
    let window = Parts {
        head: b"\x01\x00\x07\x00\x64\x01",
        part: b"\x0C\x00\x3C\x00\x00\x00\x00\x00\x01\xFF\xFF\x00\x01",
        times: 1,
        tail: b"\x00",
    };
    refused_parts(rt, heap, sheet, &window, (16, 8))
}

fn prints<T: Axis, P: Axis>(
    rt: &impl Abort,
    sheet: &mut Sheet<T, P>,
    image: &[u8],
    text: &[u8],
) -> Result<(), Fail> {
    let mut buffer = [b'#'; 40];
    assert_eq!(rt; answer(image, sheet, &mut buffer)?, text.len());
    assert!(rt; buffer.starts_with(text));
    Ok(())
}

fn prints_parts<T: Axis, P: Axis>(
    rt: &impl Abort,
    heap: Global,
    sheet: &mut Sheet<T, P>,
    parts: &Parts<'_>,
    text: &[u8],
) -> Result<(), Fail> {
    let image = parts.image(heap)?;
    prints(rt, sheet, image.as_slice(), text)
}

// The first two stays have one step too few for a plan; the other image has 65586 bytes, and its first two say 48.
fn no_plan_and_long<T: Axis, P: Axis>(
    rt: &impl Abort,
    heap: Global,
    sheet: &mut Sheet<T, P>,
) -> Result<(), Fail> {
    let short = Parts {
        head: b"\x01\x00\x06\x00\x64\x02",
        part: &worked()[8..26],
        times: 1,
        tail: b"\x00",
    };
    prints_parts(rt, heap, sheet, &short, b"no plan\n")?;
    let long = Parts {
        head: b"",
        part: &[0; 254],
        times: 255,
        tail: &[0; 814],
    };
    prints_parts(rt, heap, sheet, &long, b"fault 31 image 0\n")
}

// A plan, and a fault of each layer.
fn plan_and_faults<T: Axis, P: Axis>(rt: &impl Abort, sheet: &mut Sheet<T, P>) -> Result<(), Fail> {
    prints(rt, sheet, &worked(), b"plan 3\n1 0 0\n2 3 0\n3 0 60\n")?;
    prints(rt, sheet, &worked()[0..9], b"fault 31 image 0\n")?;
    prints(rt, sheet, &changed(38, 1), b"fault 16 sheet 26\n")?;
    prints(rt, sheet, &changed(44, 0x80), b"fault 6 axis 40\n")
}

fn all<T: Axis, P: Axis>(
    rt: &impl Abort,
    heap: Global,
    sheet: &mut Sheet<T, P>,
) -> Result<(), Fail> {
    whole(rt, sheet);
    one_byte_changed(rt, sheet);
    cut_short(rt, sheet);
    cut_short_with_its_length(rt, sheet);
    too_many(rt, heap, sheet)?;
    sums_do_not_wrap(rt, heap, sheet)?;
    no_plan_and_long(rt, heap, sheet)?;
    plan_and_faults(rt, sheet)
}

#[test]
fn time_on_a_matrix(rt: HostRuntime) -> Result<(), Fail> {
    let heap = rt.alloc();
    let mut sheet = Sheet::new(heap, MatrixAxis::new(heap)?, ListAxis::new(heap)?)?;
    all(&rt, heap, &mut sheet)
}

#[test]
fn time_on_a_list(rt: HostRuntime) -> Result<(), Fail> {
    let heap = rt.alloc();
    let mut sheet = Sheet::new(heap, ListAxis::new(heap)?, MatrixAxis::new(heap)?)?;
    all(&rt, heap, &mut sheet)
}
