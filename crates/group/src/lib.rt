// The definition of a group of warps: all of it stands in specs/. The code that meets it is in group_drive, group_machine and capi_group.

#![tactic(auto)]
