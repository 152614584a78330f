//! The files of the tests: for each its name, `hex` or `text`, and its contents.
//!
//! `%RANGE(ITEM)` is the item for each number of the range, and `/` in a text is a line feed.
//! Records are written field by field. A and B are in format 1: a run of a bank without cycles, and
//! one with two. A2, B2 and C2 are in format 2: the same, and one with three cycles. G2 is a guard
//! that refuses its second cycle of three. wide.1 and wide.2 are a bank of three blocks in each
//! format.

fn file_list() -> &'static str {
    "\
A hex 444554524543 0001 0001 0000000000000000 0000000000989680 0002 0000000000000004 \
0000000000000002 0001 0002 01 78 01 02 03 00000004 %4(0008 0000000000000000) 05
B hex 444554524543 0001 0001 0000000000000000 0000000000989680 0002 0000000000000004 \
0000000000000002 0001 0002 01 78 01 02 03 00000004 %4(0008 0000000000000000) 04 01 \
0000000000000000 00000001 0000 0000000000000064 00 00000004 %4(0008 0000000000000000) 00000018 \
%3(0000000000000000) 04 01 0000000000989680 00000000 00 00000004 %4(0008 0000000000000019) \
00000018 0000000000000064 %2(0000000000000019) 05
A2 hex 444554524543 0002 0001 0000000000000000 0000000000989680 0002 0000000000000004 \
0000000000000002 0001 0002 01 78 00 01 02 03 00000004 %4(0008 0000000000000000) 05
C2 hex 444554524543 0002 0001 0000000000000000 0000000000989680 0002 0000000000000004 \
0000000000000002 0001 0002 01 78 00 01 02 03 00000004 %4(0008 0000000000000000) 04 01 \
0000000000000000 00000001 0000 0000000000000064 00 00000004 %4(0008 0000000000000000 00000000) \
00000018 %3(0000000000000000) 04 01 0000000000989680 00000001 0000 ffffffffffffffff 00 00000004 \
%4(0008 0000000000000019 00000000) 00000018 0000000000000064 %2(0000000000000019) 04 01 \
0000000001312d00 00000000 00 00000004 %4(0008 0000000000000012 00000000) 00000018 \
0000000000000048 %2(0000000000000012) 05
B2 hex 444554524543 0002 0001 0000000000000000 0000000000989680 0002 0000000000000004 \
0000000000000002 0001 0002 01 78 00 01 02 03 00000004 %4(0008 0000000000000000) 04 01 \
0000000000000000 00000001 0000 0000000000000064 00 00000004 %4(0008 0000000000000000 00000000) \
00000018 %3(0000000000000000) 04 01 0000000000989680 00000000 00 00000004 %4(0008 \
0000000000000019 00000000) 00000018 0000000000000064 %2(0000000000000019) 05
G2 hex 444554524543 0002 0003 0000000000000000 000000000000000a 0005 0000000000000064 \
0000000000000000 00000000000003e8 0000000000000001 0000000000000064 0064 %100(0001 03 653#3& 00) \
01 02 03 00000064 %100(000e 000000^~ 0000000000000000 0000) 04 01 0000000000000000 00000002 0046 \
00000000000007d0 0003 00000000000007d0 00 00000064 %100(000e 000000^~ 0000000000000000 0000 \
00000000) 00000015 0000000000000000 00000000 01 000000000000000a 04 01 000000000000000a 00000002 \
0046 0000000000000005 0003 0000000000000005 01 01 00 00000003 00000001 04 01 0000000000000014 \
00000000 00 00000064 %3(000e 000000^~ 0000000000000000 0000 00000000) 000e 00000003 \
0000000000000005 0000 00000000 %4.70(000e 000000^~ 0000000000000000 0000 00000000) 000e 00000046 \
0000000000000005 0000 00000000 %71.100(000e 000000^~ 0000000000000000 0000 00000000) 00000015 \
0000000000000000 00000000 01 000000000000001e 05
wide.1 hex 444554524543 0001 0001 0000000000000000 000000000000000a 0002 0000000000000081 \
0000000000000002 0000 01 02 03 00000081 %129(0008 0000000000000000) 04 00 00000000 00 00000081 \
%129(0008 0000000000000000) 00000018 %3(0000000000000000) 05
wide.2 hex 444554524543 0002 0001 0000000000000000 000000000000000a 0002 0000000000000081 \
0000000000000002 0000 01 02 03 00000081 %129(0008 0000000000000000) 04 00 00000000 00 00000081 \
%129(0008 0000000000000000 00000000) 00000018 %3(0000000000000000) 05
bank text job = 'bank'/cycle_time_ns = 10000000/workers = 2/params = [4, 2]/event = [{ name = \
'x', capacity = 2 }]/
fresh text job = 'bank'/cycle_time_ns = 10000000/workers = 2/params = [4, 2]/event = [{ name = \
'x', capacity = 2, policy = 'fresh' }]/
wide text job = 'bank'/cycle_time_ns = 10/workers = 3/params = [129, 2]/
guard text job = 'guard'/cycle_time_ns = 10/workers = 4/params = [100, 0, 1000, 1, 100]/event = \
[%100({ name = 'e#&', capacity = 1 }, )]/
limits text job = 'guard'/cycle_time_ns = 10/workers = 1/params = [2, 0, 10, 3, 2]/event = [{ \
name = 'x', capacity = 1 }]/
limit1 text job = 'guard'/cycle_time_ns = 10/workers = 1/params = [2, 0, 10, 3, 1]/event = [{ \
name = 'x', capacity = 1 }]/
refuse text job = 'guard'/cycle_time_ns = 10/workers = 1/params = [1000, 0, 10, 1, 1000]/event = \
[{ name = 'x', capacity = 1 }]/
cloud text job = 'cloud'/cycle_time_ns = 10/workers = 1/params = [65536, 1000, 0, 4000000000000]/
single text job = 'cloud'/cycle_time_ns = 10/workers = 1/params = [1, 1000, 0, 4000000000000]/
user text owner = 'chassis'/job = 'guard'/cycle_time_ns = 20000000/workers = 4/params = [12, \
-1000, 1000, 3, 12]/platform = 'arm64'/asil = 'd'/event = [%12({ name = 'wheel_#&', capacity = \
16 }, )]/init_needs = { instructions = 500000, sequential_begin = 1000, sequential_end = 2000, \
speedup_thousandths = 2500 }/run_needs = { instructions = 80000, sequential_begin = 400, \
sequential_end = 600, speedup_thousandths = 3000 }/
needy text job = 'bank'/cycle_time_ns = 10/workers = 2/params = [4, 2]/platform = \
'arm64'/run_needs = { instructions = 0, sequential_begin = 0, sequential_end = 0 }/
second text job = 'bank'/cycle_time_ns = 10000000/workers = 1/params = [1, 0]/event = [%1({ name \
= 's', capacity = 1 }, { name = 'l', capacity = 1 }, { name = 'g', capacity = 1 })]/
behind text job = 'bank'/cycle_time_ns = 10/workers = 1/params = [1, 0]/event = [{ name = 's', \
capacity = 1 }]/
s.none text stim 1/terminate/
s.two text stim 1/cycle 0/sample 0 100/cycle 10000000/terminate/
s.three text stim 1/cycle 0/sample 0 100/cycle 10000000/sample 0 -1/cycle 20000000/terminate/
s.still text stim 1/cycle 0/sample 0 100/cycle 10000000/cycle 20000000/terminate/
s.guard text stim 1/cycle 0/sample 70 2000/sample 3 2000/cycle 10/sample 70 5/sample 3 5/cycle \
20/terminate/
s.limits text stim 1/cycle -/sample 0 11/cycle -/cycle -/cycle -/terminate/
s.high text stim 1/cycle -/sample 0 11/cycle -/terminate/
s.free text stim 1/cycle -/cycle -/cycle -/terminate/
s.one text stim 1/cycle -/terminate/
s.torn text stim 1/cycle 0/cycle 1/cycle 2/
s.far text stim 1/cycle 0/sample 0 1/cycle 10/sample 1 5/terminate/
c.zero text stim 1/cycle 007/
c.plus text stim 1/cycle +1/
c.great text stim 1/cycle 18446744073709551616/
c.long text stim 1/%129(1)/
c.minus text stim 1/cycle 0/sample 0 -0/
c.most text stim 1/cycle 0/sample 0 1000000000001/
c.space text stim 1/cycle 0/sample  0 1/
m.toml text job = /
m.job text cycle_time_ns = 10/
m.kind text job = 1/
m.time text job = 'bank'/cycle_time_ns = 0/
m.none text job = 'bank'/cycle_time_ns = 10/params = [4, 2]/
m.text text job = 'bank'/cycle_time_ns = 10/workers = '2'/params = [4, 2]/
m.many text job = 'bank'/cycle_time_ns = 10/workers = 65/params = [4, 2]/
m.twice text job = 'bank'/cycle_time_ns = 10/workers = 2/params = [4, 2]/event = [{ name = 'x', \
capacity = 1 }, { name = 'x', capacity = 1 }]/
m.brake text job = 'brake'/cycle_time_ns = 10/workers = 2/params = [4, 2]/
m.shift text job = 'bank'/cycle_time_ns = 10/workers = 2/params = [4, 17]/
m.few text job = 'bank'/cycle_time_ns = 10/workers = 2/params = [4]/
m.three text job = 'bank'/cycle_time_ns = 10/workers = 2/params = [4, 2, 9]/
m.zero text job = 'bank'/cycle_time_ns = 10/workers = 2/params = [0, 2]/
m.key text job = 'bank'/cycle_time_ns = 10/wrokers = 2/workers = 2/params = [4, 2]/
"
}

/// The kind and the contents of the file under a name.
pub fn listed_text(name: &str) -> Option<&'static str> {
    for line in file_list().lines() {
        if let Some((found, text)) = line.split_once(' ') {
            if found == name {
                return Some(text);
            }
        }
    }
    None
}
