//! The text of the shipped configuration.

/// The metrics with their constraints, and then the hypotheses.
pub(crate) const SHIPPED: &[u8] = b"sync lock_;
constraint in_proc /Code is counter {
  foreach func in $focus {
    prepend entry (* in_proc++; *)
    append return (* in_proc--; *) } }
constraint proc_entries /Code is replace {
  foreach func in $focus { prepend entry constrained (* $metric++; *) } }
constraint proc_calls /Code is replace {
  foreach func in $focus { prepend call constrained (* $metric++; *) } }
constraint proc_time /Code is replace {
  foreach func in $focus {
    prepend entry (* start($metric); *)
    append return (* stop($metric); *) } }
constraint on_object /SyncObject is counter {
  foreach func in [lock_acquire, barrier_wait] {
    prepend entry (* if ($arg[0] == $value) on_object = 1; *)
    append return (* on_object = 0; *) } }
metric procedure_calls { units \"calls\"; constraint proc_entries;
  base is counter { foreach func in $all {
    prepend entry (* procedure_calls++; *) } } }
metric calls_made { units \"calls\"; constraint proc_calls;
  base is counter { foreach func in $all { prepend call (* calls_made++; *) } } }
metric cpu_inclusive { units \"ticks\"; constraint proc_time;
  base is timer initially 1 { } }
metric cpu { units \"ticks\"; constraint proc_time;
  base is timer initially 1 {
    foreach func in [lock_acquire, barrier_wait, read, write] {
      prepend entry (* stop(cpu); *)
      append return (* start(cpu); *) } } }
metric sync_wait { units \"ticks\"; constraint in_proc; constraint on_object;
  base is timer { foreach func in [lock_acquire, barrier_wait] {
    prepend entry constrained (* start(sync_wait); *)
    append return (* stop(sync_wait); *) } } }
metric io_wait { units \"ticks\"; constraint in_proc;
  base is timer { foreach func in [read, write] {
    prepend entry constrained (* start(io_wait); *)
    append return (* stop(io_wait); *) } } }
metric small_io { units \"operations\"; constraint in_proc;
  base is counter { foreach func in [read, write] {
    prepend entry constrained (* if ($arg[2] < 64) small_io++; *) } } }
hypothesis CPUbound { metric cpu; threshold 600; axes Code, Machine; }
hypothesis ExcessiveSyncWaitingTime {
  metric sync_wait; threshold 200; axes Code, Machine, SyncObject; }
hypothesis ExcessiveIOBlockingTime {
  metric io_wait; threshold 200; axes Code, Machine; }
hypothesis TooManySmallIOOps { parent ExcessiveIOBlockingTime;
  metric small_io; threshold 5; axes Code, Machine; }
";
